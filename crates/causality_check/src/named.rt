//! Whether trees name only cells that there are.

ghost use Rattle.std.specs.Prelude.{◌≡◌, ◌<◌, All, IfOk, IsTrue, MatchBool, length};
ghost use Rattle.aif_cells.specs.Built.{all_defined};
ghost use Rattle.causality_check.specs.Graph.{IsClosed};
ghost use Rattle.causality_check.specs.Order.{NamesCells};

use crate::gather::needs_of_cells;
use aif_cells::Aif;
use quartz_tree::NoMemory;
use sqlite_items::Items;
use std::alloc::Global;

/// Whether each cell that a tree names exists, which `order` asks.
pub fn are_named(alloc: Global, aif: &Aif) -> Result<bool, NoMemory>
    ensures { IfOk result
        (λ named. MatchBool named (NamesCells (all_defined aif.now.cells))
        (NamesCells (all_defined aif.now.cells) → ⊥)) }
{
    let graph = needs_of_cells(alloc, aif.cells.as_slice())?;
    let closed = is_closed(graph.as_slice());
    Ok(closed)
}

fn are_below(cells: &[u32], count: usize) -> bool
    ensures { MatchBool result (All (λ d. d < count) cells.now)
        (All (λ d. d < count) cells.now → ⊥) }
{
    for cell in cells {
        if *cell as usize >= count {
            return false;
        }
    }
    true
}

fn is_closed(graph: &[Items<u32>]) -> bool
    ensures { MatchBool result (IsClosed graph.now) (IsClosed graph.now → ⊥) }
{
    for row in graph {
        let below = are_below(row.as_slice(), graph.len());
        if !below {
            return false;
        }
    }
    true
}
