//! The registers of a module, with their initial values.

ghost use Rattle.std.specs.Prelude.{◌≡◌, ◌+◌, ◌<◌, ◌^◌, ◌++◌, [], ◌∷◌, length, pos, replicate, true, IfOk, OnOk};
ghost use Rattle.quartz_expr.specs.Steps.{outputs_of};
ghost use Rattle.quartz_expr.specs.Typed.{have_sound_types};
ghost use Rattle.absence_reaction.specs.Closing.{one_if};
ghost use Rattle.quartz_tree.specs.Storage.{is_memorized};
ghost use Rattle.statement_cells.specs.Labels.{shape_in};
ghost use Rattle.statement_cells.specs.Whole.{element_registers, outputs_registers, register_of, repeated, variable_registers};
ghost use Rattle.quartz_expr.specs.Vars.{count_of};

use absence_reaction::Shape;
use aif_cells::{Ref, Register};
use expression_cells::count_elements;
use quartz_tree::{Flow, NoMemory, Place, Storage, Var};
use sqlite_items::Items;
use std::alloc::Global;

/// The numbers of the outputs in declared order.
pub(crate) fn outputs_of(alloc: Global, vars: &[Var]) -> Result<Items<u32>, NoMemory>
    requires { length vars.now < 2 ^ 32 }
    ensures { IfOk result (λ xs. xs ≡ outputs_of vars.now) }
{
    let mut outputs = Items::new(alloc);
    for (number, var) in vars.iter().enumerate() {
        if var.decl.flow == Flow::Output {
            outputs.push(number as u32)?;
        }
    }
    Ok(outputs)
}

/// What closing asks of a variable.
pub(crate) fn shape_in(vars: &[Var], var: u32) -> Shape
    ensures { result ≡ shape_in vars.now var }
{
    match vars.get(var as usize) {
        Some(var) => Shape {
            storage: var.decl.storage,
            delayed: var.delayed,
            start: var.start,
            place: var.decl.place,
        },
        None => Shape {
            storage: Storage::Mem,
            delayed: false,
            start: 0,
            place: Place { line: 0, col: 0 },
        },
    }
}

// A register that starts at that value.
fn register_of(start: i64) -> Register
    ensures { result ≡ register_of start }
{
    Register {
        initial: start,
        next: Ref::Lit(0),
    }
}

// So many registers behind the others that start at that value.
fn push_many(registers: &mut Items<Register>, count: u32, start: i64) -> Result<(), NoMemory>
    ensures { OnOk result (registers.new ≡ registers.old ++ replicate count (register_of start)) }
{
    for _register in 0..count {
        registers.push(register_of(start))?;
    }
    Ok(())
}

// How many registers keep an element's value.
fn values_of(shape: Shape) -> u32
    ensures { result ≡ one_if (is_memorized shape.storage) }
{
    if shape.storage.is_memorized() { 1 } else { 0 }
}

// How many registers keep what is pending of an element.
fn pending_of(shape: Shape) -> u32
    ensures { result ≡ one_if shape.delayed + one_if shape.delayed }
{
    if shape.delayed { 2 } else { 0 }
}

// The registers of an output's element behind the others.
fn push_element(registers: &mut Items<Register>, shape: Shape) -> Result<(), NoMemory>
    ensures { OnOk result (registers.new ≡ registers.old ++ element_registers shape) }
{
    push_many(registers, values_of(shape), shape.start)?;
    push_many(registers, pending_of(shape), 0)?;
    Ok(())
}

// The registers of so many elements behind the others.
fn push_elements(registers: &mut Items<Register>, count: u32, shape: Shape) -> Result<(), NoMemory>
    ensures { OnOk result
        (registers.new ≡ registers.old ++ repeated count (element_registers shape)) }
{
    for _element in 0..count {
        push_element(registers, shape)?;
    }
    Ok(())
}

// The registers of outputs behind the others.
fn push_outputs(
    registers: &mut Items<Register>,
    vars: &[Var],
    outputs: &[u32],
) -> Result<(), NoMemory>
    requires { have_sound_types vars.now ≡ true }
    ensures { OnOk result
        (registers.new ≡ registers.old ++ outputs_registers vars.now outputs.now) }
{
    for output in outputs {
        let count = count_elements(vars, *output);
        push_elements(registers, count, shape_in(vars, *output))?;
    }
    Ok(())
}

/// The registers before they are told what they take: the start flag, the labels, those of outputs
/// and those of scopes.
pub(crate) fn first_registers(
    alloc: Global,
    vars: &[Var],
    outputs: &[u32],
    labels: u32,
    scopes: u32,
) -> Result<Items<Register>, NoMemory>
    requires { have_sound_types vars.now ≡ true }
    ensures { IfOk result
        (λ rs. rs ≡ register_of (pos 1)
        ∷ (replicate labels (register_of (pos 0))
        ++ (outputs_registers vars.now outputs.now ++ replicate scopes (register_of (pos 0))))) }
{
    let mut registers = Items::from_slice(alloc, &[register_of(1)])?;
    push_many(&mut registers, labels, 0)?;
    push_outputs(&mut registers, vars, outputs)?;
    push_many(&mut registers, scopes, 0)?;
    Ok(registers)
}
