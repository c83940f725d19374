//! Closing a copy of a variable, one element after another.

ghost use Rattle.std.specs.Prelude.{◌≡◌, ◌+◌, ◌*◌, ◌<◌, ◌≤◌, ◌^◌, true, length, slice_get, IfOk, OnOk};
ghost use Rattle.quartz_tree.specs.declared.declare.Var.{Var};
ghost use Rattle.aif_cells.specs.Tree.{cases, tree, value};
ghost use Rattle.aif_cells.specs.Built.{all_defined};
ghost use Rattle.absence_reaction.specs.Closing.{AreBelow, absence_of, arms_for as plain_arms_for, built, can_conflict as may_conflict, closed_copy, closed_element, conflict_made, flag_of, has_pending as plain_has_pending, pending_made, register_of, registers_each, shape_of, value_tree, watched_by};

use crate::arms::{arms_for, disagreements_for, guards_for};
use crate::copy::{Closed, Shape, VarCopy};
use aif_cells::{Action, Aif, Cell, Monitor, Ref, Tree, add_cell, any_of, join};
use quartz_tree::{Kind, NoMemory, Place, Storage, Var};
use sqlite_items::Items;
use std::alloc::Global;

/// Closes a copy of a variable: gives its reserved value cells their trees, and makes the cells of
/// the new flag, the new pending value and the conflicts of each element, with monitors on the
/// conflicts.
///
/// After an error the `Aif` is to be dropped.
pub fn close(alloc: Global, aif: &mut Aif, copy: &VarCopy) -> Result<Closed, NoMemory>
    requires var { copy.now.var < length aif.old.vars }
    requires values { AreBelow (length aif.old.cells) copy.now.values }
    requires registers { copy.now.first + 3 * length copy.now.values < 2 ^ 32 }
    ensures closed { IfOk result
        (λ c. (v : Var) → slice_get aif.old.vars copy.entry.now.var ≡ Some v
        → record {
          values = c.values;
          flags = c.flags;
          pending = c.pending;
          built = built aif.new.cells aif.new.monitors;
        }
        ≡ closed_copy (shape_of v) copy.entry.now (built aif.old.cells aif.old.monitors)) }
    ensures rest { OnOk result
        (aif.new ≡ record aif.old { cells = aif.new.cells; monitors = aif.new.monitors }) }
{
    let shape = shape_in(aif.vars.as_slice(), copy.var);
    close_all(alloc, &mut aif.cells, &mut aif.monitors, shape, copy)
}

fn shape_in(vars: &[Var], var: u32) -> Shape
    requires { var < length vars.now }
    ensures { (v : Var) → slice_get vars.now var ≡ Some v → result ≡ shape_of v }
{
    let var = &vars[var as usize];
    Shape {
        storage: var.decl.storage,
        delayed: var.delayed,
        start: var.start,
        place: var.decl.place,
    }
}

fn close_all(
    alloc: Global,
    cells: &mut Items<Cell>,
    monitors: &mut Items<Monitor>,
    shape: Shape,
    copy: &VarCopy,
) -> Result<Closed, NoMemory>
    requires values { AreBelow (length cells.old) copy.now.values }
    requires registers { copy.now.first + 3 * length copy.now.values < 2 ^ 32 }
    ensures { IfOk result
        (λ c. record {
          values = c.values;
          flags = c.flags;
          pending = c.pending;
          built = built cells.new monitors.new;
        }
        ≡ closed_copy shape copy.entry.now (built cells.old monitors.old)) }
{
    let mut values = Items::new(alloc);
    let mut flags = Items::new(alloc);
    let mut pending = Items::new(alloc);
    for (element, cell) in copy.values.as_slice().iter().enumerate() {
        let (flag, later) = close_element(
            alloc,
            cells,
            monitors,
            shape,
            copy,
            element as u32,
            *cell,
        )?;
        values.push(Ref::Cell(*cell))?;
        flags.push(flag)?;
        pending.push(later)?;
    }
    Ok(Closed {
        values,
        flags,
        pending,
    })
}

// The cells of an element, whose value cell has this number: its new flag, and its new pending
// value.
fn close_element(
    alloc: Global,
    cells: &mut Items<Cell>,
    monitors: &mut Items<Monitor>,
    shape: Shape,
    copy: &VarCopy,
    element: u32,
    cell: u32,
) -> Result<(Ref, Ref), NoMemory>
    requires cell { cell < length cells.old }
    requires registers { copy.now.first + 3 * (element + 1) < 2 ^ 32 }
    ensures made { IfOk result
        (λ r. record { flag = r.0; pending = r.1; built = built cells.new monitors.new }
        ≡ closed_element shape copy.entry.now element cell (built cells.old monitors.old)) }
    ensures longer { OnOk result (length cells.old ≤ length cells.new) }
{
    let place = shape.place;
    let now = copy.now.as_slice();
    let next = copy.next.as_slice();
    let tree = value_of(alloc, shape, copy, element)?;
    cells.set(cell as usize, Cell { tree, place });
    let guards = guards_for(alloc, element, next)?;
    let flag = join(alloc, cells, place, guards)?;
    let pending = pending_in(alloc, cells, place, element, next)?;
    let beside = has_pending(shape, copy);
    watch(
        alloc,
        cells,
        monitors,
        place,
        beside,
        element,
        now,
        Ref::Cell(cell),
    )?;
    watch(alloc, cells, monitors, place, false, element, next, pending)?;
    Ok((flag, pending))
}

fn has_pending(shape: Shape, copy: &VarCopy) -> bool
    ensures { result ≡ plain_has_pending shape copy.entry.now }
{
    copy.stored && shape.delayed
}

// How many registers each element has.
fn count_registers(shape: Shape) -> u32
    ensures count { result ≡ registers_each shape }
    ensures few { result < 4 }
{
    let delayed = shape.delayed as u32;
    shape.storage.is_memorized() as u32 + (delayed + delayed)
}

fn register_in(shape: Shape, copy: &VarCopy, element: u32) -> u32
    requires { copy.now.first + 3 * (element + 1) < 2 ^ 32 }
    ensures register { result ≡ register_of shape copy.entry.now.first element }
    ensures room { result + registers_each shape < 2 ^ 32 }
{
    copy.first + element * count_registers(shape)
}

fn flag_in(shape: Shape, copy: &VarCopy, element: u32) -> u32
    requires delayed { shape.delayed ≡ true }
    requires registers { copy.now.first + 3 * (element + 1) < 2 ^ 32 }
    ensures flag { result ≡ flag_of shape copy.entry.now.first element }
    ensures room { result + 1 < 2 ^ 32 }
{
    register_in(shape, copy, element) + shape.storage.is_memorized() as u32
}

// What the element has where nothing is written.
fn absence_in(shape: Shape, copy: &VarCopy, element: u32) -> Ref
    requires { copy.now.first + 3 * (element + 1) < 2 ^ 32 }
    ensures { value result ≡ absence_of shape copy.entry.now element }
{
    match shape.storage {
        Storage::Event => Ref::Lit(0),
        Storage::Mem => {
            if copy.stored {
                Ref::Reg(register_in(shape, copy, element))
            } else {
                Ref::Lit(shape.start)
            }
        }
    }
}

// The tree of the element's value cell.
fn value_of(alloc: Global, shape: Shape, copy: &VarCopy, element: u32) -> Result<Tree, NoMemory>
    requires { copy.now.first + 3 * (element + 1) < 2 ^ 32 }
    ensures { IfOk result (λ t. tree t ≡ value_tree shape copy.entry.now element) }
{
    let absence = absence_in(shape, copy, element);
    let written = first_written(alloc, element, copy.now.as_slice(), absence)?;
    if !has_pending(shape, copy) {
        return Ok(written);
    }
    let flag = flag_in(shape, copy, element);
    Ok(Tree::Ite(
        Box::new(alloc, Tree::Value(Ref::Reg(flag)))?,
        Box::new(alloc, Tree::Value(Ref::Reg(flag + 1)))?,
        Box::new(alloc, written)?,
    ))
}

// The value of the first action that acts, else the last one.
fn first_written(
    alloc: Global,
    element: u32,
    actions: &[Action],
    last: Ref,
) -> Result<Tree, NoMemory>
    ensures { IfOk result (λ t. tree t ≡ cases (plain_arms_for element actions.now) (value last)) }
{
    let arms = arms_for(alloc, element, actions)?;
    let last = Box::new(alloc, Tree::Value(last))?;
    Ok(Tree::Cases(arms, last))
}

fn pending_in(
    alloc: Global,
    cells: &mut Items<Cell>,
    place: Place,
    element: u32,
    next: &[Action],
) -> Result<Ref, NoMemory>
    ensures { IfOk result
        (λ r. record { ref = r; cells = all_defined cells.new }
        ≡ pending_made place (plain_arms_for element next.now) (all_defined cells.old)) }
{
    let arms = arms_for(alloc, element, next)?;
    if arms.is_empty() {
        return Ok(Ref::Lit(0));
    }
    let none = Box::new(alloc, Tree::Value(Ref::Lit(0)))?;
    add_cell(cells, Tree::Cases(arms, none), place)
}

fn can_conflict(beside: bool, count: usize) -> bool
    ensures { result ≡ may_conflict beside count }
{
    if beside { 0 < count } else { 1 < count }
}

// A monitor on a new cell, where there can be a conflict of the actions with what came of them.
fn watch(
    alloc: Global,
    cells: &mut Items<Cell>,
    monitors: &mut Items<Monitor>,
    place: Place,
    beside: bool,
    element: u32,
    actions: &[Action],
    other: Ref,
) -> Result<(), NoMemory>
    ensures { OnOk result
        (built cells.new monitors.new
        ≡ conflict_made place beside other (plain_arms_for element actions.now)
        (built cells.old monitors.old)) }
{
    let items = disagreements_for(alloc, element, actions, other)?;
    if !can_conflict(beside, items.len()) {
        return Ok(());
    }
    let conflict = any_of(alloc, items)?;
    watch_cell(cells, monitors, place, conflict)
}

fn watch_cell(
    cells: &mut Items<Cell>,
    monitors: &mut Items<Monitor>,
    place: Place,
    conflict: Tree,
) -> Result<(), NoMemory>
    ensures { OnOk result
        (built cells.new monitors.new
        ≡ watched_by place (tree conflict) (built cells.old monitors.old)) }
{
    let Ref::Cell(cell) = add_cell(cells, conflict, place)? else {
        return Err(NoMemory);
    };
    monitors.push(Monitor {
        cell,
        place,
        kind: Kind::Conflict,
    })?;
    Ok(())
}
