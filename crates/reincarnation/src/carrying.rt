//! What the registers of a scope's variable take for the next step.

ghost use Rattle.std.specs.Prelude.{◌≡◌, ◌+◌, ◌*◌, ◌<◌, ◌≤◌, ◌^◌, [], ◌∷◌, length, map, pos, slice_get, slice_index_or, IfOk, OnOk};
ghost use Rattle.quartz_tree.specs.declared.declare.Var.{Var as AnyVar};
ghost use Rattle.aif_cells.specs.Tree.{cases, tree, value};
ghost use Rattle.aif_cells.specs.Built.{all_defined};
ghost use Rattle.aif_cells.specs.Aif.{elements_of};
ghost use Rattle.reincarnation.specs.Carrying.{arm_of, carried, carried_from, carried_part, carried_parts, part_in as plain_part_in, parts_of, ref_in as plain_ref_in, stores, taken, value_part, with_next};

use crate::copy::{ClosedRefs, Entered, Part};
use crate::entering::{elements_in, place_in};
use aif_cells::{Aif, Cell, Ref, Register, Tree, add_cell};
use quartz_tree::{NoMemory, Place, Storage, Var};
use sqlite_items::Items;
use std::alloc::Global;

/// Sets what the registers of a scope's variable take for the next step: what the copy has that was
/// entered, else what the depth copy has.
///
/// After an error the `Aif` is to be dropped.
pub fn carry(
    alloc: Global,
    aif: &mut Aif,
    var: u32,
    first: u32,
    copies: &[Entered],
    depth: &ClosedRefs,
) -> Result<(), NoMemory>
    requires var { var < length aif.old.vars }
    requires few { length aif.old.registers < 2 ^ 32 }
    requires elements { (v : AnyVar) → slice_get aif.old.vars var ≡ Some v
        → elements_of v < 2 ^ 64 }
    requires registers { (v : AnyVar) → slice_get aif.old.vars var ≡ Some v
        → first + elements_of v * length (parts_of v) ≤ length aif.old.registers }
    ensures carried { OnOk result
        ((v : AnyVar) → slice_get aif.old.vars var ≡ Some v
        → stores aif.new.registers aif.new.cells
        ≡ carried v copies.now depth.now first (stores aif.old.registers aif.old.cells)) }
    ensures rest { OnOk result
        (aif.new ≡ record aif.old { registers = aif.new.registers; cells = aif.new.cells }) }
{
    let place = place_in(aif.vars.as_slice(), var);
    let count = elements_in(aif.vars.as_slice(), var);
    let parts = parts_in(alloc, aif.vars.as_slice(), var)?;
    carry_all(
        alloc,
        &mut aif.registers,
        &mut aif.cells,
        place,
        copies,
        depth,
        parts.as_slice(),
        count,
        first,
    )
}

fn value_parts(alloc: Global, storage: Storage) -> Result<Vec<Part>, NoMemory>
    ensures { IfOk result (λ v. v.items ≡ value_part storage) }
{
    match storage {
        Storage::Mem => Ok(vec![in alloc; Part::Value]?),
        Storage::Event => Ok(Vec::new(alloc)),
    }
}

// What the registers of an element keep, in order.
pub(crate) fn parts_in(alloc: Global, vars: &[Var], var: u32) -> Result<Vec<Part>, NoMemory>
    requires { var < length vars.now }
    ensures { IfOk result
        (λ ps. (v : AnyVar) → slice_get vars.now var ≡ Some v → ps.items ≡ parts_of v) }
{
    let var = &vars[var as usize];
    let mut parts = value_parts(alloc, var.decl.storage)?;
    if var.delayed {
        parts.push(Part::Flag)?;
        parts.push(Part::Pending)?;
    }
    Ok(parts)
}

fn part_in(part: Part, closed: &ClosedRefs) -> &[Ref]
    ensures { result.now ≡ plain_part_in part closed.now }
{
    match part {
        Part::Value => closed.values.as_slice(),
        Part::Flag => closed.flags.as_slice(),
        Part::Pending => closed.pending.as_slice(),
    }
}

fn ref_in(element: usize, part: Part, closed: &ClosedRefs) -> Ref
    ensures { result ≡ plain_ref_in element part closed.now }
{
    part_in(part, closed)
        .get(element)
        .copied()
        .unwrap_or(Ref::Lit(0))
}

// For each copy that may have been entered, under what it was, and what it has.
fn arms(
    alloc: Global,
    element: usize,
    part: Part,
    copies: &[Entered],
) -> Result<Vec<(Tree, Tree)>, NoMemory>
    ensures { IfOk result
        (λ v. map (λ a. (tree a.0, tree a.1)) v.items ≡ map (arm_of element part) copies.now) }
{
    let mut arms = Vec::new(alloc);
    for copy in copies {
        let carried = ref_in(element, part, &copy.closed);
        arms.push((Tree::Value(copy.enter), Tree::Value(carried)))?;
    }
    Ok(arms)
}

// What a register takes.
fn take(
    alloc: Global,
    cells: &mut Items<Cell>,
    place: Place,
    copies: &[Entered],
    depth: &ClosedRefs,
    element: usize,
    part: Part,
) -> Result<Ref, NoMemory>
    ensures { IfOk result
        (λ r. record { ref = r; cells = all_defined cells.new }
        ≡ taken place copies.now depth.now element part (all_defined cells.old)) }
{
    let kept = ref_in(element, part, depth);
    if copies.is_empty() {
        return Ok(kept);
    }
    let arms = arms(alloc, element, part, copies)?;
    let last = Box::new(alloc, Tree::Value(kept))?;
    add_cell(cells, Tree::Cases(arms, last), place)
}

fn register_at(registers: &[Register], register: usize) -> Register
    requires { register < length registers.now }
    ensures { result ≡ slice_index_or registers.now register result }
{
    registers[register]
}

// Sets what a register takes.
fn set_next(registers: &mut Items<Register>, register: usize, next: Ref)
    requires { register < length registers.old }
    ensures { registers.new ≡ with_next registers.old register next }
{
    let mut changed = register_at(registers.as_slice(), register);
    changed.next = next;
    registers.set(register, changed);
}

// The registers of an element from this one on.
fn carry_element(
    alloc: Global,
    registers: &mut Items<Register>,
    cells: &mut Items<Cell>,
    place: Place,
    copies: &[Entered],
    depth: &ClosedRefs,
    parts: &[Part],
    element: usize,
    first: usize,
) -> Result<(), NoMemory>
    requires few { length registers.old < 2 ^ 32 }
    requires room { first + length parts.now ≤ length registers.old }
    ensures count { OnOk result (length registers.new ≡ length registers.old) }
    ensures carried { OnOk result
        (stores registers.new cells.new
        ≡ carried_parts place copies.now depth.now element parts.now first
        (stores registers.old cells.old)) }
{
    let mut register = first;
    for part in parts {
        let next = take(alloc, cells, place, copies, depth, element, *part)?;
        set_next(registers, register, next);
        register += 1;
    }
    Ok(())
}

fn carry_all(
    alloc: Global,
    registers: &mut Items<Register>,
    cells: &mut Items<Cell>,
    place: Place,
    copies: &[Entered],
    depth: &ClosedRefs,
    parts: &[Part],
    count: u128,
    first: u32,
) -> Result<(), NoMemory>
    requires few { length registers.old < 2 ^ 32 }
    requires room { first + count * length parts.now ≤ length registers.old }
    requires count { count < 2 ^ 64 }
    ensures { OnOk result
        (stores registers.new cells.new
        ≡ carried_from place copies.now depth.now parts.now 0 count first
        (stores registers.old cells.old)) }
{
    let mut register = first as usize;
    for element in 0..count as usize {
        carry_element(
            alloc, registers, cells, place, copies, depth, parts, element, register,
        )?;
        register += parts.len();
    }
    Ok(())
}
