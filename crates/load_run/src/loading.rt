//! A run of cells over a generated trace, and its summary.

ghost use Rattle.std.specs.Prelude.{◌≡◌, ◌≢◌, ◌≤◌, ◌⊎◌, length, IfOk, OnErr};
ghost use Rattle.outside.specs.Bytes.{Rose};
ghost use Rattle.quartz_tree.specs.Kernel.{Kernel};
ghost use Rattle.quartz_expr.specs.Vars.{Vars};
ghost use Rattle.aif_cells.specs.Built.{all_defined};
ghost use Rattle.aif_cells.specs.Order.{IsOrder};
ghost use Rattle.trace_io.specs.Inputs.{output_types};
ghost use Rattle.command_texts.specs.Texts.{summary_of};
ghost use Rattle.command_texts.specs.Written.{IsWritten};
ghost use Rattle.command_texts.specs.Counted.{HaveShortLines};
ghost use Rattle.cell_run.specs.Machine.{Executes};
ghost use Rattle.load_run.specs.Load.{IsOfLoad, Loaded};

use aif_cells::{Aif, Order};
use cell_run::run_cells;
use command_texts::put_summary;
use outside::{Sink, Status};
use quartz_tree::NoMemory;
use std::alloc::Global;
use trace_io::{CountSink, TraceGen};

// The most steps that any run has. A generated trace has no more.
const MOST_STEPS: u32 = u32::MAX;

// Puts the summary of so many steps, whose lines were counted.
fn put_told<O: Sink>(steps: u32, counted: &CountSink, out: &mut O) -> Status
    ensures out_counts { O.faults out.old ≤ O.faults out.new }
    ensures written { IsWritten (summary_of steps counted.now) (O.stands out.old) (O.stands out.new)
        (Rose (O.faults out.old) (O.faults out.new)) result }
{
    match put_summary(out, u64::from(steps), counted) {
        Ok(()) => Status::Ok,
        Err(_) => Status::WriteFault,
    }
}

// Ends a run of so many steps, whose lines were counted: where it is done, its summary is put.
fn end_run<O: Sink>(status: Status, steps: u32, counted: &CountSink, out: &mut O) -> Status
    ensures out_counts { O.faults out.old ≤ O.faults out.new }
    ensures written { status ≡ Status.Ok
        → IsWritten (summary_of steps counted.now) (O.stands out.old) (O.stands out.new)
        (Rose (O.faults out.old) (O.faults out.new)) result }
    ensures kept { status ≢ Status.Ok → (result ≡ status) × (out.new ≡ out.old) }
{
    match status {
        Status::Ok => put_told(steps, counted, out),
        _ => status,
    }
}

/// Runs cells on the trace that a seed generates for so many steps, and where the run is done puts
/// two lines: the number of steps and of the bytes that were written, and the last line. All its
/// memory is taken before the first step.
pub fn load_cells<O: Sink>(
    alloc: Global,
    aif: &Aif,
    order: &Order,
    seed: u64,
    steps: u32,
    out: &mut O,
) -> Result<Status, NoMemory>
    requires vars { HaveShortLines aif.now.vars }
    requires order { IsOrder (all_defined aif.now.cells) order.now.cells }
    requires outputs { length (output_types aif.now.vars) ≤ length aif.now.outputs }
    ensures out_counts { O.faults out.old ≤ O.faults out.new }
    ensures no_memory { OnErr result (out.new ≡ out.old) }
    ensures of_load { IfOk result (λ s. IsOfLoad s) }
    ensures write_fault { IfOk result
        (λ s. s ≡ Status.WriteFault → Rose (O.faults out.old) (O.faults out.new)) }
    ensures told { IfOk result (λ s. (vs : Vars) (body : Kernel) → Executes vs body aif.now →
        Loaded vs body seed steps (O.stands out.old) (O.stands out.new)
        (Rose (O.faults out.old) (O.faults out.new)) s) }
{
    let mut trace = TraceGen::new(alloc, aif.vars.as_slice(), seed, steps)?;
    let mut counted = CountSink::new(alloc)?;
    let status = run_cells(alloc, aif, order, MOST_STEPS, &mut trace, &mut counted)?;
    Ok(end_run(status, steps, &counted, out))
}
