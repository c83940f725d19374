//! New cells: a reference to a tree, and the alternatives of a list.

ghost use Rattle.std.specs.Prelude.{◌≡◌, map, filter, IfOk};
ghost use Rattle.aif_cells.specs.Built.{all_defined, is_needed, is_not_nought as plain_is_not_nought, join as joined, join_alone as plain_join_alone, new, or_all, reference_in as plain_reference_in};
ghost use Rattle.aif_cells.specs.Tree.{any, tree};

use crate::cells::Cell;
use crate::reference::Ref;
use crate::tree::Tree;
use quartz_tree::{NoMemory, Place};
use sqlite_items::Items;
use std::alloc::Global;

/// Adds a cell behind all others, and gives its reference. Where there were 2^32 cells it answers
/// want of memory.
pub fn add_cell(cells: &mut Items<Cell>, computed: Tree, place: Place) -> Result<Ref, NoMemory>
    ensures { IfOk result
        (λ r. record { ref = r; cells = all_defined cells.new } ≡ new (tree computed) place
        (all_defined cells.old)) }
{
    let Ok(number) = u32::try_from(cells.len()) else {
        return Err(NoMemory);
    };
    cells.push(Cell {
        tree: computed,
        place,
    })?;
    Ok(Ref::Cell(number))
}

/// The trees joined by `or`, nested to the right; the literal 0 where there are none.
pub fn any_of(alloc: Global, items: Vec<Tree>) -> Result<Tree, NoMemory>
    ensures { IfOk result (λ t. tree t ≡ or_all (map tree items.items)) }
{
    let mut front = items;
    match front.pop() {
        None => Ok(Tree::Value(Ref::Lit(0))),
        Some(last) => alternatives(alloc, front, last),
    }
}

fn alternatives(alloc: Global, front: Vec<Tree>, last: Tree) -> Result<Tree, NoMemory>
    ensures { IfOk result (λ t. tree t ≡ any (map tree front.items) (tree last)) }
{
    if front.is_empty() {
        return Ok(last);
    }
    Ok(Tree::Any(front, Box::new(alloc, last)?))
}

/// The reference that a tree is, if it is one.
pub fn reference_in(t: &Tree) -> Option<Ref>
    ensures { result ≡ plain_reference_in (tree t.now) }
{
    match t {
        Tree::Value(reference) => Some(*reference),
        Tree::One(..) => None,
        Tree::Two(..) => None,
        Tree::Ite(..) => None,
        Tree::Sel(..) => None,
        Tree::Fit(..) => None,
        Tree::Bnot(..) => None,
        Tree::Cat(..) => None,
        Tree::Bits(..) => None,
        Tree::Cases(arms, last) => {
            if arms.is_empty() {
                reference_in(last)
            } else {
                None
            }
        }
        Tree::Any(items, last) => {
            if items.is_empty() {
                reference_in(last)
            } else {
                None
            }
        }
    }
}

fn is_not_nought(t: &Tree) -> bool
    ensures { result ≡ is_needed (plain_reference_in (tree t.now)) }
{
    match reference_in(t) {
        Some(Ref::Lit(number)) => number != 0,
        Some(Ref::Input(_)) => true,
        Some(Ref::Reg(_)) => true,
        Some(Ref::Cell(_)) => true,
        None => true,
    }
}

// The trees but the literals 0.
fn without_noughts(items: Vec<Tree>) -> Vec<Tree>
    ensures { map tree result.items ≡ filter plain_is_not_nought (map tree items.items) }
{
    let mut left = items;
    left.retain(is_not_nought);
    left
}

// The reference that a join of trees is where it needs no cell.
fn join_alone(items: &[Tree]) -> Option<Ref>
    ensures { result ≡ plain_join_alone (map tree items.now) }
{
    match items {
        [] => Some(Ref::Lit(0)),
        [only] => reference_in(only),
        [_, _, ..] => None,
    }
}

/// The join of trees: what is left without literals 0, joined by `or` in a new cell. Nothing gives
/// the literal 0, and a reference alone itself.
pub fn join(
    alloc: Global,
    cells: &mut Items<Cell>,
    place: Place,
    items: Vec<Tree>,
) -> Result<Ref, NoMemory>
    ensures { IfOk result
        (λ r. record { ref = r; cells = all_defined cells.new } ≡ joined place
        (map tree items.items) (all_defined cells.old)) }
{
    let left = without_noughts(items);
    if let Some(reference) = join_alone(left.as_slice()) {
        return Ok(reference);
    }
    let computed = any_of(alloc, left)?;
    add_cell(cells, computed, place)
}
