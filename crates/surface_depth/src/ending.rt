//! Closing the copies of the outputs.

ghost use Rattle.std.specs.Prelude.{◌≡◌, ◌+◌, ◌*◌, ◌<◌, ◌^◌, length, true, IfOk, OnOk};
ghost use Rattle.quartz_expr.specs.Typed.{have_sound_types};
ghost use Rattle.absence_reaction.specs.Closing.{AreBelow};
ghost use Rattle.statement_builder.specs.Built.{IsOver};
ghost use Rattle.surface_depth.specs.Ends.{Ends, EndsAll, are_below, open_copy};

use crate::beginning::OutputCopy;
use crate::carrying::ClosedOutput;
use crate::counting::{count_registers, plus};
use absence_reaction::{Closed, VarCopy, close};
use quartz_tree::{NoMemory, Var};
use reincarnation::ClosedRefs;
use sqlite_items::Items;
use statement_builder::Builder;
use std::alloc::Global;

fn are_below(bound: usize, cells: &[u32]) -> bool
    ensures { result ≡ are_below bound cells.now }
{
    for cell in cells {
        if *cell as usize >= bound {
            return false;
        }
    }
    true
}

// The variable of an output is there, and so are its cells, and its registers have numbers.
#[tactic(auto, using(crate::proofs::EndLemmas::all_below))]
fn can_close(builder: &Builder, output: &OutputCopy, first: u32) -> bool
    ensures var { result ≡ true → output.now.var < length builder.now.variables.items }
    ensures cells { result ≡ true → AreBelow (length builder.now.aif.cells) output.now.cells }
    ensures registers { result ≡ true → first + 3 * length output.now.cells < 2 ^ 32 }
{
    (output.var as usize) < builder.variables.len()
        && are_below(builder.aif.cells.len(), output.cells.as_slice())
        && first < 1 << 31
        && output.cells.len() < 1 << 29
}

// The copy of an output, with the writes to it.
fn copy_to_close(
    alloc: Global,
    builder: &Builder,
    output: &OutputCopy,
    first: u32,
) -> Result<VarCopy, NoMemory>
    requires { output.now.var < length builder.now.variables.items }
    ensures { IfOk result (λ c. c ≡ open_copy builder.now output.now first) }
{
    let variable = &builder.variables[output.var as usize];
    let values = Items::from_slice(alloc, output.cells.as_slice())?;
    let now = Items::from_slice(alloc, variable.now.as_slice())?;
    let next = Items::from_slice(alloc, variable.next.as_slice())?;
    Ok(VarCopy {
        var: output.var,
        copy: 0,
        stored: true,
        first,
        values,
        now,
        next,
    })
}

// Closes the copy of an output, whose registers begin at the first one.
fn close_output(
    alloc: Global,
    vars: &[Var],
    builder: &mut Builder,
    output: &OutputCopy,
    first: u32,
) -> Result<ClosedOutput, NoMemory>
    requires { IsOver vars.now builder.old }
    ensures { IfOk result (λ c. Ends vars.now builder.old output.now first c builder.new) }
{
    if !can_close(builder, output, first) {
        return Err(NoMemory);
    }
    let copy = copy_to_close(alloc, builder, output, first)?;
    let closed = close(alloc, &mut builder.aif, &copy)?;
    Ok(ClosedOutput {
        var: output.var,
        first,
        closed: refs_of(closed),
    })
}

fn refs_of(closed: Closed) -> ClosedRefs
    ensures { result ≡ record {
      values = closed.values;
      flags = closed.flags;
      pending = closed.pending;
    } }
{
    let Closed {
        values,
        flags,
        pending,
    } = closed;
    ClosedRefs {
        values,
        flags,
        pending,
    }
}

/// Closes the copies of the outputs in order, whose registers begin at the first one.
pub(crate) fn close_outputs(
    alloc: Global,
    vars: &[Var],
    builder: &mut Builder,
    outputs: &[OutputCopy],
    first: u32,
) -> Result<Vec<ClosedOutput>, NoMemory>
    requires types { have_sound_types vars.now ≡ true }
    requires over { IsOver vars.now builder.old }
    ensures over { OnOk result (IsOver vars.now builder.new) }
    ensures ends { IfOk result
        (λ cs. EndsAll vars.now builder.old outputs.now first cs.items builder.new) }
{
    let mut closed = Vec::new(alloc);
    let mut register = first;
    for output in outputs {
        closed.push(close_output(alloc, vars, builder, output, register)?)?;
        register = plus(register, count_registers(vars, output.var))?;
    }
    Ok(closed)
}
