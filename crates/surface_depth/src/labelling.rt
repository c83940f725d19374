//! What a label takes: where it is entered, and where it stays.

ghost use Rattle.std.specs.Prelude.{◌≡◌, ℕ, ◌+◌, ◌<◌, ◌≤◌, ◌^◌, ◌++◌, List, [], ◌∷◌, length, map, replicate, slice_index_or, IfOk, OnOk};
ghost use Rattle.aif_cells.specs.Built.{all_defined, new};
ghost use Rattle.aif_cells.specs.Tree.{tree, two, value};
ghost use Rattle.reincarnation.specs.Carrying.{stores, with_next};
ghost use Rattle.statement_cells.specs.Builder.{Entry as PlainEntry, nowhere};
ghost use Rattle.statement_builder.specs.Built.{entry};
ghost use Rattle.surface_depth.specs.Labelling.{by_label, label_in, labels_in, stays_in, staying_in};

use crate::lists::{empty_lists, push_at};
use aif_cells::{Cell, Ref, Register, Tree, TreeTwo, add_cell, join};
use quartz_tree::{NoMemory, Place};
use sqlite_items::Items;
use statement_builder::Entry;
use std::alloc::Global;

/// The place of the cells that belong to no variable.
const NOWHERE: Place = Place { line: 1, col: 1 };

// `and` of a label and a reference.
fn and_label(
    alloc: Global,
    cells: &mut Items<Cell>,
    label: u32,
    under: Ref,
) -> Result<Ref, NoMemory>
    ensures { IfOk result
        (λ r. record { ref = r; cells = all_defined cells.new }
        ≡ new (two TreeTwo.And (value (Ref.Reg label)) (value under)) nowhere
        (all_defined cells.old)) }
{
    let left = Box::new(alloc, Tree::Value(Ref::Reg(label)))?;
    let right = Box::new(alloc, Tree::Value(under))?;
    let made = add_cell(cells, Tree::Two(TreeTwo::And, left, right), NOWHERE)?;
    Ok(made)
}

// A label that is 1 and stays.
fn stays_in(alloc: Global, cells: &mut Items<Cell>, label: u32, under: Ref) -> Result<Ref, NoMemory>
    ensures { IfOk result
        (λ r. record { ref = r; cells = all_defined cells.new }
        ≡ stays_in label under (all_defined cells.old)) }
{
    match under {
        Ref::Lit(0) => Ok(Ref::Lit(0)),
        Ref::Lit(_) => Ok(Ref::Reg(label)),
        Ref::Input(_) => and_label(alloc, cells, label, under),
        Ref::Reg(_) => and_label(alloc, cells, label, under),
        Ref::Cell(_) => and_label(alloc, cells, label, under),
    }
}

// The trees of references.
fn values(alloc: Global, refs: &[Ref]) -> Result<Vec<Tree>, NoMemory>
    ensures { IfOk result (λ v. map tree v.items ≡ map value refs.now) }
{
    let mut trees = Vec::new(alloc);
    for reference in refs {
        trees.push(Tree::Value(*reference))?;
    }
    Ok(trees)
}

// For each reference under which a label stays, the tree that says that it is 1 and stays.
fn push_staying(
    alloc: Global,
    cells: &mut Items<Cell>,
    label: u32,
    stays: &[Ref],
    trees: &mut Vec<Tree>,
) -> Result<(), NoMemory>
    ensures trees { OnOk result
        (map tree trees.new.items
        ≡ map tree trees.old.items
        ++ map value (staying_in label stays.now (all_defined cells.old)).refs) }
    ensures cells { OnOk result
        (all_defined cells.new ≡ (staying_in label stays.now (all_defined cells.old)).cells) }
{
    for under in stays {
        let staying = stays_in(alloc, cells, label, *under)?;
        trees.push(Tree::Value(staying))?;
    }
    Ok(())
}

fn register_at(registers: &[Register], register: usize) -> Register
    requires { register < length registers.now }
    ensures { result ≡ slice_index_or registers.now register result }
{
    registers[register]
}

// Sets what a register takes.
fn set_next(registers: &mut Items<Register>, register: usize, next: Ref)
    requires { register < length registers.old }
    ensures { registers.new ≡ with_next registers.old register next }
{
    let mut changed = register_at(registers.as_slice(), register);
    changed.next = next;
    registers.set(register, changed);
}

// A label is 1 next where it is entered or stays.
#[tactic(auto, using(crate::proofs::RegisterLemmas::next_count))]
fn take_label(
    alloc: Global,
    registers: &mut Items<Register>,
    cells: &mut Items<Cell>,
    label: u32,
    entered: &[Ref],
    stays: &[Ref],
) -> Result<(), NoMemory>
    requires { label < length registers.old }
    ensures count { OnOk result (length registers.new ≡ length registers.old) }
    ensures taken { OnOk result
        (stores registers.new cells.new
        ≡ label_in label entered.now stays.now (stores registers.old cells.old)) }
{
    let mut trees = values(alloc, entered)?;
    push_staying(alloc, cells, label, stays, &mut trees)?;
    let next = join(alloc, cells, NOWHERE, trees)?;
    set_next(registers, label as usize, next);
    Ok(())
}

/// The registers of labels are told what they take, where these are the references under which each
/// label is entered, and those under which it stays.
pub(crate) fn take_labels(
    alloc: Global,
    registers: &mut Items<Register>,
    cells: &mut Items<Cell>,
    entered: &[Items<Ref>],
    stays: &[Items<Ref>],
) -> Result<(), NoMemory>
    requires both { length stays.now ≡ length entered.now }
    requires room { 1 + length entered.now ≤ length registers.old }
    requires few { length registers.old < 2 ^ 32 }
    ensures count { OnOk result (length registers.new ≡ length registers.old) }
    ensures taken { OnOk result
        (stores registers.new cells.new
        ≡ labels_in 1 entered.now stays.now (stores registers.old cells.old)) }
{
    for (number, entered) in entered.iter().enumerate() {
        let label = 1 + number as u32;
        let stays = stays[number].as_slice();
        take_label(alloc, registers, cells, label, entered.as_slice(), stays)?;
    }
    Ok(())
}

// One reference more of a label.
#[tactic(auto, using(crate::proofs::LabelLemmas::label_more, crate::proofs::LabelLemmas::label_none))]
fn push_under(lists: &mut Vec<Items<Ref>>, label: u32, under: Ref) -> Result<(), NoMemory>
    ensures { OnOk result
        ((n : ℕ) (es : List PlainEntry) → lists.old.items ≡ by_label 1 n es
        → lists.new.items ≡ by_label 1 n (es ++ record { label = label; under = under } ∷ [])) }
{
    match label.checked_sub(1) {
        Some(at) => {
            push_at(lists, at as usize, under)?;
            Ok(())
        }
        None => Ok(()),
    }
}

/// The references of so many labels, by label.
#[tactic(auto, using(crate::proofs::LabelLemmas::begins))]
pub(crate) fn by_label(
    alloc: Global,
    entries: &[Entry],
    labels: u32,
) -> Result<Vec<Items<Ref>>, NoMemory>
    ensures { IfOk result (λ v. v.items ≡ by_label 1 labels (map entry entries.now)) }
{
    let mut lists = empty_lists(alloc, labels as usize)?;
    for entry in entries {
        push_under(&mut lists, entry.label, entry.under)?;
    }
    Ok(lists)
}
