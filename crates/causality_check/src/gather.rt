//! The cells on which a cell depends.

ghost use Rattle.std.specs.Prelude.{◌≡◌, ◌++◌, map, IfOk, OnOk};
ghost use Rattle.aif_cells.specs.Tree.{tree};
ghost use Rattle.aif_cells.specs.Built.{all_defined};
ghost use Rattle.aif_cells.specs.Dependences.{cells_in, cells_named};
ghost use Rattle.causality_check.specs.Gather.{cells_in_arms, cells_in_each, needs_of};

use aif_cells::{Cell, Ref, Tree};
use quartz_tree::NoMemory;
use sqlite_items::Items;
use std::alloc::Global;

fn gather_reference(reference: Ref, found: &mut Items<u32>) -> Result<(), NoMemory>
    ensures { OnOk result (found.new ≡ found.old ++ cells_named reference) }
{
    match reference {
        Ref::Lit(_) => Ok(()),
        Ref::Input(_) => Ok(()),
        Ref::Reg(_) => Ok(()),
        Ref::Cell(cell) => {
            found.push(cell)?;
            Ok(())
        }
    }
}

// The cells in a tree, from left to right, behind those that are found.
#[cycle(gather)]
fn gather(t: &Tree, found: &mut Items<u32>) -> Result<(), NoMemory>
    ensures { OnOk result (found.new ≡ found.old ++ cells_in (tree t.now)) }
{
    match t {
        Tree::Value(reference) => gather_reference(*reference, found),
        Tree::One(_, part) => gather(part, found),
        Tree::Two(_, left, right) => {
            gather(left, found)?;
            gather(right, found)?;
            Ok(())
        }
        Tree::Ite(cond, yes, no) => {
            gather(cond, found)?;
            gather(yes, found)?;
            gather(no, found)?;
            Ok(())
        }
        Tree::Sel(index, items) => {
            gather(index, found)?;
            gather_each(items, found)?;
            Ok(())
        }
        Tree::Fit(part, _, _) => gather(part, found),
        Tree::Bnot(part, _) => gather(part, found),
        Tree::Cat(high, low, _) => {
            gather(high, found)?;
            gather(low, found)?;
            Ok(())
        }
        Tree::Bits(part, _, _) => gather(part, found),
        Tree::Cases(arms, last) => {
            gather_arms(arms, found)?;
            gather(last, found)?;
            Ok(())
        }
        Tree::Any(items, last) => {
            gather_each(items, found)?;
            gather(last, found)?;
            Ok(())
        }
    }
}

#[cycle(gather)]
fn gather_each(items: &[Tree], found: &mut Items<u32>) -> Result<(), NoMemory>
    ensures { OnOk result (found.new ≡ found.old ++ cells_in_each (map tree items.now)) }
{
    for item in items {
        gather(item, found)?;
    }
    Ok(())
}

#[cycle(gather)]
fn gather_arms(arms: &[(Tree, Tree)], found: &mut Items<u32>) -> Result<(), NoMemory>
    ensures { OnOk result
        (found.new ≡ found.old ++ cells_in_arms (map (λ a. (tree a.0, tree a.1)) arms.now)) }
{
    for (cond, value) in arms {
        gather(cond, found)?;
        gather(value, found)?;
    }
    Ok(())
}

fn needs(alloc: Global, cell: &Cell) -> Result<Items<u32>, NoMemory>
    ensures { IfOk result (λ r. r ≡ cells_in (tree cell.now.tree)) }
{
    let mut found = Items::new(alloc);
    gather(&cell.tree, &mut found)?;
    Ok(found)
}

/// For each cell those on which it depends.
pub(crate) fn needs_of_cells(alloc: Global, cells: &[Cell]) -> Result<Vec<Items<u32>>, NoMemory>
    ensures { IfOk result (λ v. v.items ≡ needs_of (all_defined cells.now)) }
{
    let mut rows = Vec::new(alloc);
    for cell in cells {
        rows.push(needs(alloc, cell)?)?;
    }
    Ok(rows)
}
