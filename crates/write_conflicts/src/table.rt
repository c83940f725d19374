//! For a block, what each cell's tree and each action's guard says.

ghost use Rattle.std.specs.Prelude.{◌≡◌, ◌<◌, length, map, IfOk};
ghost use Rattle.aif_cells.specs.Built.{all_defined};
ghost use Rattle.aif_cells.specs.Order.{IsOrder};
ghost use Rattle.write_conflicts.specs.Tables.{AreColumns, IsTable, guard_says};

use crate::block::{Block, Both, Said, nothing, said_by, said_in};
use aif_cells::{Action, Cell};
use quartz_tree::NoMemory;
use sqlite_items::Items;
use std::alloc::Global;

// For each cell what its tree says of the block's references.
fn table_of(
    alloc: Global,
    block: Block,
    cells: &[Cell],
    order: &[u32],
) -> Result<Vec<Both>, NoMemory>
    requires { IsOrder (all_defined cells.now) order.now }
    ensures { IfOk result (λ t. IsTable (all_defined cells.now) block t.items) }
{
    let mut table = vec![in alloc; nothing(); cells.len()]?;
    for cell in order {
        let said = said_in(block, table.as_slice(), &cells[*cell as usize].tree);
        table[*cell as usize] = said;
    }
    Ok(table)
}

// What each action's guard says of the block's references.
fn column(
    alloc: Global,
    block: Block,
    table: &[Both],
    actions: &[Action],
) -> Result<Items<Said>, NoMemory>
    ensures { IfOk result (λ c. c ≡ map (guard_says block table.now) actions.now) }
{
    let mut column = Items::new(alloc);
    for action in actions {
        column.push(said_by(block, table, action.guard).plus)?;
    }
    Ok(column)
}

/// For each block what each action's guard says of its references.
pub(crate) fn columns(
    alloc: Global,
    blocks: &[Block],
    cells: &[Cell],
    order: &[u32],
    actions: &[Action],
) -> Result<Vec<Items<Said>>, NoMemory>
    requires { IsOrder (all_defined cells.now) order.now }
    ensures { IfOk result (λ c. AreColumns (all_defined cells.now) blocks.now actions.now c.items) }
{
    let mut columns = Vec::new(alloc);
    for block in blocks {
        let table = table_of(alloc, *block, cells, order)?;
        columns.push(column(alloc, *block, table.as_slice(), actions)?)?;
    }
    Ok(columns)
}
