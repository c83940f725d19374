//! What each command does with a module that was built.

ghost use Rattle.std.specs.Prelude.{◌≡◌, ◌≤◌, ◌⊎◌, false, length};
ghost use Rattle.quartz_tree.specs.Kernel.{Kernel};
ghost use Rattle.quartz_tree.specs.Surfaces.{ModuleTree};
ghost use Rattle.quartz_expr.specs.Vars.{Vars};
ghost use Rattle.outside.specs.Bytes.{Rose};
ghost use Rattle.aif_cells.specs.Text.{aif_text};
ghost use Rattle.trace_io.specs.Held.{CalledAtMost};
ghost use Rattle.cell_run.specs.Machine.{Executes};
ghost use Rattle.cell_run.specs.Told.{calls_of_run};
ghost use Rattle.command_texts.specs.Texts.{accepted_text};
ghost use Rattle.command_texts.specs.Written.{IsWritten};
ghost use Rattle.load_run.specs.Load.{Loaded};
ghost use Rattle.quartz_build.specs.Parts.{ArePartsOf};
ghost use Rattle.trace_writer.specs.Anew.{format_of};
ghost use Rattle.convert_run.specs.Told.{IsOfConvert};
ghost use Rattle.averest_top.specs.Commands.{calls_of, most_converted, reads_trace, wants_pairs_in};
ghost use Rattle.averest_top.specs.Tasks.{ConvertsAs, Does, EndsAs, IsOfTask, IsReady, RunsAs, loose_in};

use crate::task::Task;
use aif_cells::write_text;
use cell_run::run_cells;
use command_texts::put_accepted;
use convert_run::convert_trace;
use load_run::load_cells;
use outside::{Sink, Source, Status};
use quartz_build::Built;
use std::alloc::Global;
use trace_writer::Format;
use write_conflicts::Pairs;

// In how many steps at most a trace is converted.
const MOST_CONVERTED: u32 = 4294967295;

// Runs a module on a trace, in at most so many steps.
fn run_built<S: Source, O: Sink>(
    alloc: Global,
    built: &Built,
    most_steps: u32,
    input: &mut S,
    out: &mut O,
) -> Status
    requires ready { IsReady built.now }
    ensures input_counts { S.faults input.old ≤ S.faults input.new }
    ensures out_counts { O.faults out.old ≤ O.faults out.new }
    ensures asked { CalledAtMost (calls_of_run most_steps) (S.calls input.old) (S.calls input.new) }
    ensures of_task { IsOfTask result }
    ensures read_fault { result ≡ Status.ReadFault
        → Rose (S.faults input.old) (S.faults input.new) }
    ensures write_fault { result ≡ Status.WriteFault → Rose (O.faults out.old) (O.faults out.new) }
    ensures untouched { result ≡ Status.NoMemory → (input.new ≡ input.old) × (out.new ≡ out.old) }
    ensures done { (vs : Vars) (body : Kernel) → Executes vs body built.now.aif →
        (result ≡ Status.NoMemory)
        ⊎ RunsAs vs body most_steps (S.left input.old) (S.left input.new) (O.stands out.old)
        (O.stands out.new)
        (Rose (S.faults input.old) (S.faults input.new))
        (Rose (O.faults out.old) (O.faults out.new)) result }
{
    match run_cells(alloc, &built.aif, &built.order, most_steps, input, out) {
        Ok(status) => status,
        Err(_) => Status::NoMemory,
    }
}

fn count_loose(pairs: &Option<Pairs>) -> u64
    ensures { result ≡ loose_in pairs.now }
{
    match pairs {
        Some(pairs) => pairs.count,
        None => 0,
    }
}

// Says how large a module is.
fn check_built<O: Sink>(built: &Built, out: &mut O) -> Status
    ensures out_counts { O.faults out.old ≤ O.faults out.new }
    ensures ends { (result ≡ Status.Ok) ⊎ (result ≡ Status.WriteFault) }
    ensures written { IsWritten
        (accepted_text (length built.now.aif.cells) (length built.now.aif.registers)
        (loose_in built.now.pairs))
        (O.stands out.old) (O.stands out.new) (Rose (O.faults out.old) (O.faults out.new)) result }
{
    let cells = built.aif.cells.len() as u64;
    let registers = built.aif.registers.len() as u64;
    match put_accepted(out, cells, registers, count_loose(&built.pairs)) {
        Ok(()) => Status::Ok,
        Err(_) => Status::WriteFault,
    }
}

// Writes the cells of a module.
fn write_built<O: Sink>(built: &Built, out: &mut O) -> Status
    requires ready { IsReady built.now }
    ensures out_counts { O.faults out.old ≤ O.faults out.new }
    ensures ends { (result ≡ Status.Ok) ⊎ (result ≡ Status.WriteFault) }
    ensures written { IsWritten (aif_text built.now.aif) (O.stands out.old) (O.stands out.new)
        (Rose (O.faults out.old) (O.faults out.new)) result }
{
    match write_text(&built.aif, out) {
        Ok(()) => Status::Ok,
        Err(_) => Status::WriteFault,
    }
}

// Runs a module on the trace that a seed generates for so many steps.
fn load_built<O: Sink>(alloc: Global, built: &Built, seed: u64, steps: u32, out: &mut O) -> Status
    requires ready { IsReady built.now }
    ensures out_counts { O.faults out.old ≤ O.faults out.new }
    ensures of_task { IsOfTask result }
    ensures no_read_fault { ¬ (result ≡ Status.ReadFault) }
    ensures write_fault { result ≡ Status.WriteFault → Rose (O.faults out.old) (O.faults out.new) }
    ensures untouched { result ≡ Status.NoMemory → out.new ≡ out.old }
    ensures done { (vs : Vars) (body : Kernel) → Executes vs body built.now.aif →
        (result ≡ Status.NoMemory)
        ⊎ Loaded vs body seed steps (O.stands out.old) (O.stands out.new)
        (Rose (O.faults out.old) (O.faults out.new)) result }
{
    match load_cells(alloc, &built.aif, &built.order, seed, steps, out) {
        Ok(status) => status,
        Err(_) => Status::NoMemory,
    }
}

// Writes a trace of a module's inputs anew in a format.
fn convert_built<S: Source, O: Sink>(
    alloc: Global,
    built: &Built,
    to: u32,
    input: &mut S,
    out: &mut O,
) -> Status
    requires ready { IsReady built.now }
    ensures input_counts { S.faults input.old ≤ S.faults input.new }
    ensures out_counts { O.faults out.old ≤ O.faults out.new }
    ensures asked { CalledAtMost (calls_of_run most_converted) (S.calls input.old)
        (S.calls input.new) }
    ensures ends { (result ≡ Status.NoMemory) ⊎ IsOfConvert result }
    ensures read_fault { result ≡ Status.ReadFault
        → Rose (S.faults input.old) (S.faults input.new) }
    ensures write_fault { result ≡ Status.WriteFault → Rose (O.faults out.old) (O.faults out.new) }
    ensures untouched { result ≡ Status.NoMemory → (input.new ≡ input.old) × (out.new ≡ out.old) }
    ensures done { (result ≡ Status.NoMemory)
        ⊎ ConvertsAs (format_of to) built.now.aif.vars (S.left input.old) (S.left input.new)
        (O.stands out.old) (O.stands out.new)
        (Rose (S.faults input.old) (S.faults input.new))
        (Rose (O.faults out.old) (O.faults out.new)) result }
{
    let format = Format::of_number(to);
    let vars = built.aif.vars.as_slice();
    match convert_trace(alloc, vars, format, MOST_CONVERTED, input, out) {
        Ok(status) => status,
        Err(_) => Status::NoMemory,
    }
}

/// Does a task with a module that was built.
pub(crate) fn do_task<S: Source, O: Sink>(
    alloc: Global,
    task: Task,
    built: &Built,
    input: &mut S,
    out: &mut O,
) -> Status
    requires ready { IsReady built.now }
    ensures input_counts { S.faults input.old ≤ S.faults input.new }
    ensures out_counts { O.faults out.old ≤ O.faults out.new }
    ensures asked { CalledAtMost (calls_of task) (S.calls input.old) (S.calls input.new) }
    ensures untaken { reads_trace task ≡ false → input.new ≡ input.old }
    ensures of_task { IsOfTask result }
    ensures ends { EndsAs task result }
    ensures read_fault { result ≡ Status.ReadFault
        → Rose (S.faults input.old) (S.faults input.new) }
    ensures write_fault { result ≡ Status.WriteFault → Rose (O.faults out.old) (O.faults out.new) }
    ensures untouched { result ≡ Status.NoMemory → (input.new ≡ input.old) × (out.new ≡ out.old) }
    ensures done { (m : ModuleTree) → ArePartsOf (wants_pairs_in task) m built.now →
        (result ≡ Status.NoMemory)
        ⊎ Does task m (S.left input.old) (S.left input.new) (O.stands out.old) (O.stands out.new)
        (Rose (S.faults input.old) (S.faults input.new))
        (Rose (O.faults out.old) (O.faults out.new)) result }
{
    match task {
        Task::Run { most_steps } => run_built(alloc, built, most_steps, input, out),
        Task::Check { .. } => check_built(built, out),
        Task::Aif => write_built(built, out),
        Task::Load { seed, steps } => load_built(alloc, built, seed, steps, out),
        Task::Convert { to } => convert_built(alloc, built, to, input, out),
    }
}
