//! What a module begins with: first copies of its variables, and reserved cells for its outputs.

ghost use Rattle.std.specs.Prelude.{◌≡◌, ◌-◌, ◌<◌, ◌^◌, [], length, map, option_map, replicate, slice_get, slice_set, true, IfOk, OnOk, Some};
ghost use Rattle.quartz_expr.specs.Typed.{have_sound_types};
ghost use Rattle.reincarnation.specs.Entering.{numbers_from};
ghost use Rattle.statement_builder.specs.Built.{IsBuilt, IsOver};
ghost use Rattle.surface_depth.specs.Begins.{Begins, BeginsAll, unknown, with_copy};
ghost use Rattle.aif_cells.specs.Aif.{elements_of, input_count};
ghost use Rattle.quartz_expr.specs.Steps.{outputs_of};
ghost use Rattle.statement_cells.specs.Whole.{after_flow as plain_after_flow, first_copies, first_copy, nothing_built};

use crate::counting::plus;
use crate::registers::shape_in;
use aif_cells::{Aif, Made, Ref};
use expression_cells::count_elements;
use quartz_tree::{Flow, Name, NoMemory, Var};
use reincarnation::{cell_refs, reserve};
use sqlite_items::Items;
use statement_builder::{Builder, OpenVar};
use statement_cells::Current;
use std::alloc::Global;

// So many elements of inputs from the first on.
#[tactic(auto, using(crate::proofs::BeginLemmas::inputs_more))]
fn inputs_from(alloc: Global, first: u32, count: u32) -> Result<Items<Ref>, NoMemory>
    ensures { IfOk result (λ rs. rs ≡ map Ref.Input (numbers_from first count)) }
{
    let mut values = Items::new(alloc);
    for element in 0..count {
        values.push(Ref::Input(plus(first, element)?))?;
    }
    Ok(values)
}

// So many literals.
fn literals(alloc: Global, value: i64, count: u32) -> Result<Items<Ref>, NoMemory>
    ensures { IfOk result (λ rs. rs ≡ replicate count (Ref.Lit value)) }
{
    let mut values = Items::new(alloc);
    for _element in 0..count {
        values.push(Ref::Lit(value))?;
    }
    Ok(values)
}

// The copy of a variable at the start.
fn first_copy(alloc: Global, var: &Var, input: u32, count: u32) -> Result<Current, NoMemory>
    ensures { IfOk result (λ c. c ≡ first_copy var.now.decl.flow var.now.start input count) }
{
    let values = match var.decl.flow {
        Flow::Input => inputs_from(alloc, input, count)?,
        Flow::Output => Items::new(alloc),
        Flow::Inner => literals(alloc, var.start, count)?,
    };
    Ok(Current { copy: 0, values })
}

// The number of the next input's first element.
fn after_flow(flow: Flow, input: u32, count: u32) -> Result<u32, NoMemory>
    ensures { IfOk result (λ n. n ≡ plain_after_flow flow input count) }
{
    match flow {
        Flow::Input => plus(input, count),
        Flow::Output => Ok(input),
        Flow::Inner => Ok(input),
    }
}

fn count_of(var: &Var) -> Result<u32, NoMemory>
    ensures { IfOk result (λ n. n ≡ elements_of var.now) }
{
    let Ok(count) = u32::try_from(aif_cells::count_elements(var)) else {
        return Err(NoMemory);
    };
    Ok(count)
}

/// The copies of variables at the start: the elements of inputs in order, nothing of outputs, and
/// of locals their start values.
pub(crate) fn first_copies(alloc: Global, vars: &[Var]) -> Result<Vec<Current>, NoMemory>
    ensures { IfOk result (λ cs. cs.items ≡ first_copies vars.now 0) }
{
    let mut copies = Vec::new(alloc);
    let mut input = 0;
    for var in vars {
        let count = count_of(var)?;
        copies.push(first_copy(alloc, var, input, count)?)?;
        input = after_flow(var.decl.flow, input, count)?;
    }
    Ok(copies)
}

/// The copy of an output, with its value cells.
#[derive(Debug, Drop)]
pub(crate) struct OutputCopy {
    pub var: u32,
    pub cells: Items<u32>,
}

// Another current copy of a variable takes the place of the one before.
fn set_current(copies: &mut Vec<Current>, var: u32, current: Current)
    requires { var < length copies.old.items }
    ensures { copies.new.items ≡ slice_set copies.old.items var current }
{
    copies[var as usize] = current;
}

fn copies_in(variables: &[OpenVar], var: u32) -> u32
    requires { var < length variables.now }
    ensures { Some result ≡ option_map (λ o. o.copies) (slice_get variables.now var) }
{
    variables[var as usize].copies
}

// One copy more of a variable.
#[tactic(auto, using(crate::proofs::BeginLemmas::with_one))]
fn count_copy(variables: &mut Vec<OpenVar>, var: u32) -> Result<(), NoMemory>
    requires { var < length variables.old.items }
    ensures { OnOk result (variables.new.items ≡ with_copy variables.old.items var) }
{
    let copies = plus(copies_in(variables, var), 1)?;
    variables[var as usize].copies = copies;
    Ok(())
}

// Reserves the value cells of an output's copy, which is the current one.
fn begin_output(
    alloc: Global,
    vars: &[Var],
    builder: &mut Builder,
    var: u32,
) -> Result<OutputCopy, NoMemory>
    requires types { have_sound_types vars.now ≡ true }
    requires over { IsOver vars.now builder.old }
    requires var { var < length vars.now }
    ensures var { IfOk result (λ o. o.var ≡ var) }
    ensures begins { IfOk result (λ o. Begins vars.now builder.old o builder.new) }
{
    let place = shape_in(vars, var).place;
    let count = count_elements(vars, var);
    let cells = reserve(alloc, &mut builder.aif.cells, place, count as u128)?;
    builder.aif.made.push(Made { var, stored: true })?;
    let values = cell_refs(alloc, cells.as_slice())?;
    set_current(&mut builder.copies, var, Current { copy: 0, values });
    count_copy(&mut builder.variables, var)?;
    Ok(OutputCopy { var, cells })
}

/// Reserves the value cells of the outputs' copies, in order.
pub(crate) fn begin_outputs(
    alloc: Global,
    vars: &[Var],
    builder: &mut Builder,
    outputs: &[u32],
) -> Result<Vec<OutputCopy>, NoMemory>
    requires types { have_sound_types vars.now ≡ true }
    requires over { IsOver vars.now builder.old }
    requires outputs { outputs.now ≡ outputs_of vars.now }
    ensures over { OnOk result (IsOver vars.now builder.new) }
    ensures begins { IfOk result
        (λ os. BeginsAll vars.now builder.old outputs.now os.items builder.new) }
{
    let mut copies = Vec::new(alloc);
    for output in outputs {
        copies.push(begin_output(alloc, vars, builder, *output)?)?;
    }
    Ok(copies)
}

// Nothing is known of so many variables.
fn unknown_variables(alloc: Global, count: usize) -> Result<Vec<OpenVar>, NoMemory>
    ensures { IfOk result (λ v. v.items ≡ replicate count unknown) }
{
    let mut variables = Vec::new(alloc);
    for _variable in 0..count {
        variables.push(OpenVar {
            copies: 0,
            now: Items::new(alloc),
            next: Items::new(alloc),
        })?;
    }
    Ok(variables)
}

/// A builder of a module with these variables, in which nothing is built.
#[tactic(auto, using(crate::proofs::BeginLemmas::fresh_built, crate::proofs::BeginLemmas::fresh_over))]
pub(crate) fn fresh_builder(alloc: Global, name: &Name, vars: &[Var]) -> Result<Builder, NoMemory>
    requires { input_count vars.now < 2 ^ 31 - 1 }
    ensures over { IfOk result (λ b. IsOver vars.now b) }
    ensures built { IfOk result (λ b. IsBuilt (first_copies vars.now 0) [] b nothing_built) }
    ensures inputs { IfOk result (λ b. b.aif.inputs ≡ input_count vars.now) }
{
    let aif = Aif::new(alloc, name, vars)?;
    let copies = first_copies(alloc, vars)?;
    let variables = unknown_variables(alloc, vars.len())?;
    Ok(Builder {
        aif,
        copies,
        entries: Items::new(alloc),
        stays: Items::new(alloc),
        variables,
        entered: Items::new(alloc),
        depths: Items::new(alloc),
    })
}
