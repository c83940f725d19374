//! The blocks that hold all references of which a guard says something.

ghost use Rattle.std.specs.Prelude.{◌≡◌, ◌+◌, ◌/◌, ◌<◌, ◌≤◌, ℕ, All, Contains, IfOk, OnOk, map, max};
ghost use Rattle.aif_cells.specs.Tree.{tree};
ghost use Rattle.aif_cells.specs.Built.{all_defined};
ghost use Rattle.write_conflicts.specs.declared.block.Block.{Block};
ghost use Rattle.write_conflicts.specs.Tables.{AreCovered, HoldsGroup, greatest_in, greatest_number, greatest_of_all};

use crate::block::{Block, Group, number_in};
use aif_cells::{Action, Cell, Ref, Tree};
use quartz_tree::NoMemory;
use std::alloc::Global;

// The number of a reference of the group, or 0.
fn greatest_number(group: Group, reference: Ref) -> u32
    ensures { result ≡ greatest_number group reference }
{
    number_in(group, reference).unwrap_or(0)
}

// The greatest number of the group that a tree names under operators of one and of two trees, or 0.
#[cycle(reach)]
fn greatest_in(group: Group, t: &Tree) -> u32
    ensures { result ≡ greatest_in group (tree t.now) }
{
    match t {
        Tree::Value(reference) => greatest_number(group, *reference),
        Tree::One(_, part) => greatest_in(group, part),
        Tree::Two(_, left, right) => {
            let left = greatest_in(group, left);
            left.max(greatest_in(group, right))
        }
        Tree::Ite(_, _, _) => 0,
        Tree::Sel(_, _) => 0,
        Tree::Fit(_, _, _) => 0,
        Tree::Bnot(_, _) => 0,
        Tree::Cat(_, _, _) => 0,
        Tree::Bits(_, _, _) => 0,
        Tree::Cases(arms, last) => {
            if arms.is_empty() {
                greatest_in(group, last)
            } else {
                0
            }
        }
        Tree::Any(items, last) => {
            let last = greatest_in(group, last);
            greatest_in_any(group, items, last)
        }
    }
}

// The greatest number in trees joined by `or`, by that in the last one.
#[cycle(reach)]
fn greatest_in_any(group: Group, items: &[Tree], last: u32) -> u32
    ensures { result ≡ greatest_of_all (map (λ t. greatest_in group (tree t)) items.now) last }
{
    let mut greatest = last;
    let mut at = items.len();
    while at > 0 {
        at -= 1;
        greatest = greatest_in(group, &items[at]).max(greatest);
    }
    greatest
}

fn greatest_in_cells(group: Group, cells: &[Cell]) -> u32
    ensures { All (λ c. greatest_in group (tree c.tree) ≤ result) cells.now }
{
    let mut greatest = 0;
    for cell in cells {
        greatest = greatest.max(greatest_in(group, &cell.tree));
    }
    greatest
}

fn greatest_in_guards(group: Group, actions: &[Action]) -> u32
    ensures { All (λ a. greatest_number group a.guard ≤ result) actions.now }
{
    let mut greatest = 0;
    for action in actions {
        greatest = greatest.max(greatest_number(group, action.guard));
    }
    greatest
}

// Adds the blocks of a group up to that of a number.
fn push_blocks(blocks: &mut Vec<Block>, group: Group, greatest: u32) -> Result<(), NoMemory>
    ensures kept { OnOk result
        ((b : Block) → Contains blocks.old.items b → Contains blocks.new.items b) }
    ensures added { OnOk result
        ((n : ℕ) → n ≤ greatest / 64
        → Contains blocks.new.items (record { group = group; at = n })) }
{
    for at in 0..greatest / 64 + 1 {
        blocks.push(Block { group, at })?;
    }
    Ok(())
}

// Adds the blocks of a group that hold all its references in cells and guards.
fn push_group(
    blocks: &mut Vec<Block>,
    group: Group,
    cells: &[Cell],
    actions: &[Action],
) -> Result<(), NoMemory>
    ensures kept { OnOk result
        ((b : Block) → Contains blocks.old.items b → Contains blocks.new.items b) }
    ensures held { OnOk result
        (HoldsGroup (all_defined cells.now) actions.now blocks.new.items group) }
{
    let greatest = greatest_in_guards(group, actions).max(greatest_in_cells(group, cells));
    push_blocks(blocks, group, greatest)?;
    Ok(())
}

/// Blocks that hold all references of which a guard says something where it acts.
pub(crate) fn blocks_of(
    alloc: Global,
    cells: &[Cell],
    actions: &[Action],
) -> Result<Vec<Block>, NoMemory>
    ensures { IfOk result (λ b. AreCovered (all_defined cells.now) b.items actions.now) }
{
    let mut blocks = Vec::new(alloc);
    push_group(&mut blocks, Group::Inputs, cells, actions)?;
    push_group(&mut blocks, Group::Registers, cells, actions)?;
    push_group(&mut blocks, Group::Cells, cells, actions)?;
    Ok(blocks)
}
