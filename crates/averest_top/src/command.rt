//! The program as one call.

ghost use Rattle.std.specs.Prelude.{◌≡◌, ◌≢◌, ◌≤◌, ◌⊎◌, Bool, false, true, List, ℕ, Some, None};
ghost use Rattle.quartz_tree.specs.declared.fault.Kind.TheVariants.{Conflict};
ghost use Rattle.quartz_tree.specs.declared.place.Place.{Place};
ghost use Rattle.quartz_tree.specs.Surfaces.{ModuleTree};
ghost use Rattle.quartz_names.specs.Resolving.{resolved_body, resolved_vars};
ghost use Rattle.outside.specs.Bytes.{Rose, Gains, Unfetched};
ghost use Rattle.command_words.specs.Words.{meant};
ghost use Rattle.outside.specs.Report.{report_line};
ghost use Rattle.command_words.specs.declared.command.Command.{Command as Order};
ghost use Rattle.trace_io.specs.Held.{CalledAtMost};
ghost use Rattle.trace_io.specs.Story.{End, Story};
ghost use Rattle.load_run.specs.Load.{Loaded};
ghost use Rattle.loose_runs.specs.Laws.{FlaggedAt};
ghost use Rattle.quartz_build.specs.Broken.{Cells, IsAccepted, Refuses, Strict, scrutiny_of, term_in};
ghost use Rattle.averest_top.specs.declared.task.Task.{Task as Demand};
ghost use Rattle.averest_top.specs.declared.task.Task.TheVariants.{Run as run_task, Check as check_task, Aif as aif_task, Load as load_task, Convert as convert_task};
ghost use Rattle.averest_top.specs.Commands.{asked_in, calls_asked, reads_trace, not_built, scrutiny_in, task_in, task_meant};
ghost use Rattle.averest_top.specs.Tasks.{SaysSize, WritesCells};
ghost use Rattle.trace_writer.specs.Anew.{format_of};
ghost use Rattle.averest_top.specs.Promise.{CanCome, ComesBefore, ComesWith, HasText, HasTold, IsExcused, LacksText, NewOutcome, OfText, Outcome};

use crate::fetching::{do_module, status_of_fault};
use crate::task::{module_of, task_of};
use command_words::{Command, WordsFault, read_words};
use outside::{Gate, Shelf, Sink, Source, Status, put_report};
use quartz_build::NOT_BUILT;
use quartz_tree::Name;
use std::alloc::Global;
use std::thread::Threads;

// Does what a command asks for.
fn do_command<F: Shelf, S: Source, O: Sink>(
    alloc: Global,
    command: &Command,
    shelf: &mut F,
    input: &mut S,
    out: &mut O,
) -> Status
    ensures shelf_counts { F.faults shelf.old ≤ F.faults shelf.new }
    ensures input_counts { S.faults input.old ≤ S.faults input.new }
    ensures out_counts { O.faults out.old ≤ O.faults out.new }
    ensures read_fault { result ≡ Status.ReadFault
        → Rose (S.faults input.old) (S.faults input.new) }
    ensures write_fault { result ≡ Status.WriteFault → Rose (O.faults out.old) (O.faults out.new) }
    ensures possible { CanCome (asked_in command.now) result }
    ensures no_usage { result ≢ Status.Usage }
    ensures unbuilt { task_in command.now ≡ None → result ≡ not_built }
    ensures unasked { task_in command.now ≡ None → shelf.new ≡ shelf.old }
    ensures asked { CalledAtMost (calls_asked (asked_in command.now)) (S.calls input.old)
        (S.calls input.new) }
    ensures untaken { (name : List ℕ) (task : Demand) → asked_in command.now ≡ Some (name, task)
        → reads_trace task ≡ false → input.new ≡ input.old }
    ensures unavailable { (name : List ℕ) (task : Demand) → asked_in command.now ≡ Some (name, task)
        → result ≡ Status.ModuleUnavailable
        → Unfetched (F.texts shelf.old) name (F.faults shelf.old) (F.faults shelf.new) }
    ensures absent { (name : List ℕ) (task : Demand) → asked_in command.now ≡ Some (name, task)
        → LacksText (F.texts shelf.old) name
        → (result ≡ Status.ModuleUnavailable) ⊎ (result ≡ Status.NoMemory) }
    ensures untouched { ComesBefore result → (input.new ≡ input.old) × (out.new ≡ out.old) }
    ensures of_text { (name text : List ℕ) (task : Demand)
        → asked_in command.now ≡ Some (name, task) → HasText (F.texts shelf.old) name text →
        OfText text task (S.left input.old) (S.left input.new) (O.stands out.old) (O.stands out.new)
        (Rose (F.faults shelf.old) (F.faults shelf.new))
        (Rose (S.faults input.old) (S.faults input.new))
        (Rose (O.faults out.old) (O.faults out.new)) result }
{
    match task_of(command) {
        Some(task) => do_module(alloc, module_of(command), task, shelf, input, out),
        None => status_of_fault(NOT_BUILT),
    }
}

// Does what the words ask for.
fn obey<F: Shelf, S: Source, O: Sink>(
    alloc: Global,
    words: &[Name],
    shelf: &mut F,
    input: &mut S,
    out: &mut O,
) -> Status
    ensures shelf_counts { F.faults shelf.old ≤ F.faults shelf.new }
    ensures input_counts { S.faults input.old ≤ S.faults input.new }
    ensures out_counts { O.faults out.old ≤ O.faults out.new }
    ensures read_fault { result ≡ Status.ReadFault
        → Rose (S.faults input.old) (S.faults input.new) }
    ensures write_fault { result ≡ Status.WriteFault → Rose (O.faults out.old) (O.faults out.new) }
    ensures possible { CanCome (task_meant words.now) result }
    ensures usage { ComesWith result Status.Usage (meant words.now ≡ None) }
    ensures unbuilt { (order : Order) → meant words.now ≡ Some order → task_in order ≡ None
        → (result ≡ not_built) ⊎ (result ≡ Status.NoMemory) }
    ensures unasked { task_meant words.now ≡ None → shelf.new ≡ shelf.old }
    ensures asked { CalledAtMost (calls_asked (task_meant words.now)) (S.calls input.old)
        (S.calls input.new) }
    ensures untaken { (name : List ℕ) (task : Demand) → task_meant words.now ≡ Some (name, task)
        → reads_trace task ≡ false → input.new ≡ input.old }
    ensures unavailable { (name : List ℕ) (task : Demand) → task_meant words.now ≡ Some (name, task)
        → result ≡ Status.ModuleUnavailable
        → Unfetched (F.texts shelf.old) name (F.faults shelf.old) (F.faults shelf.new) }
    ensures absent { (name : List ℕ) (task : Demand) → task_meant words.now ≡ Some (name, task)
        → LacksText (F.texts shelf.old) name
        → (result ≡ Status.ModuleUnavailable) ⊎ (result ≡ Status.NoMemory) }
    ensures untouched { ComesBefore result → (input.new ≡ input.old) × (out.new ≡ out.old) }
    ensures of_text { (name text : List ℕ) (task : Demand)
        → task_meant words.now ≡ Some (name, task) → HasText (F.texts shelf.old) name text →
        OfText text task (S.left input.old) (S.left input.new) (O.stands out.old) (O.stands out.new)
        (Rose (F.faults shelf.old) (F.faults shelf.new))
        (Rose (S.faults input.old) (S.faults input.new))
        (Rose (O.faults out.old) (O.faults out.new)) result }
{
    match read_words(alloc, words) {
        Ok(command) => do_command(alloc, &command, shelf, input, out),
        Err(WordsFault::Usage) => Status::Usage,
        Err(WordsFault::NoMemory) => Status::NoMemory,
    }
}

/// Does what the words ask for: builds a module of the shelf, runs it on a trace of `input`, or
/// says of it what is asked, writes to `out`, and reports how it ended. A failing report changes no
/// status.
pub fn averest<
    R: Threads + Sync,
    F: Shelf,
    S: Source + Send,
    O: Sink + Send,
    E: Sink,
    G: Gate + Sync,
>(
    _rt: &R,
    alloc: Global,
    words: &[Name],
    shelf: &mut F,
    input: &mut S,
    out: &mut O,
    report: &mut E,
    _gate: &G,
) -> Status
    ensures shelf_counts { F.faults shelf.old ≤ F.faults shelf.new }
    ensures input_counts { S.faults input.old ≤ S.faults input.new }
    ensures out_counts { O.faults out.old ≤ O.faults out.new }
    ensures report_counts { E.faults report.old ≤ E.faults report.new }

    // The words are no command.
    ensures usage { ComesWith result Status.Usage (meant words.now ≡ None) }

    // A command that isn't built yet is refused, and without a module to ask for the shelf is not
    // asked.
    ensures unbuilt { (order : Order) → meant words.now ≡ Some order → task_in order ≡ None
        → (result ≡ not_built) ⊎ (result ≡ Status.NoMemory) }
    ensures unasked { task_meant words.now ≡ None → shelf.new ≡ shelf.old }

    // What reads the trace asks the source so often at most, and nothing else takes anything of it.
    ensures asked { CalledAtMost (calls_asked (task_meant words.now)) (S.calls input.old)
        (S.calls input.new) }
    ensures untaken { (name : List ℕ) (task : Demand) → task_meant words.now ≡ Some (name, task)
        → reads_trace task ≡ false → input.new ≡ input.old }

    // There is no such text, or the shelf failed.
    ensures unavailable { (name : List ℕ) (task : Demand) → task_meant words.now ≡ Some (name, task)
        → result ≡ Status.ModuleUnavailable
        → Unfetched (F.texts shelf.old) name (F.faults shelf.old) (F.faults shelf.new) }
    ensures absent { (name : List ℕ) (task : Demand) → task_meant words.now ≡ Some (name, task)
        → LacksText (F.texts shelf.old) name
        → (result ≡ Status.ModuleUnavailable) ⊎ (result ≡ Status.NoMemory) }

    // The text is refused exactly by its rule, and with any later status it is accepted.
    ensures refused { (name text : List ℕ) (task : Demand)
        → task_meant words.now ≡ Some (name, task) → HasText (F.texts shelf.old) name text
        → (r : ℕ) (p : Place) →
        (result ≡ Status.Refused r p → Refuses (scrutiny_in task) text r p)
        × (Refuses (scrutiny_in task) text r p
        → (result ≡ Status.Refused r p)
        ⊎ IsExcused result (Rose (F.faults shelf.old) (F.faults shelf.new))) }
    ensures accepted { (name text : List ℕ) (task : Demand)
        → task_meant words.now ≡ Some (name, task) → HasText (F.texts shelf.old) name text →
        ComesBefore result ⊎ ((m : ModuleTree) × IsAccepted (scrutiny_in task) text m) }

    // With `run` a text that is accepted tells its story over the trace: the lines of the macro
    // steps of its module, and a fault exactly at the first step that has one. After a failed read
    // the whole lines that were taken are done, and after a failed write the sink has the front of
    // the story's lines.
    ensures story { (name text : List ℕ) (most : ℕ)
        → task_meant words.now ≡ Some (name, run_task most) → HasText (F.texts shelf.old) name text
        →
        (m : ModuleTree) (trace : List ℕ) → IsAccepted Cells text m → S.left input.old ≡ Some trace
        →
        Outcome (resolved_vars m) (resolved_body m) trace most (O.stands out.old) (O.stands out.new)
        (S.left input.new)
        (Rose (F.faults shelf.old) (F.faults shelf.new))
        (Rose (S.faults input.old) (S.faults input.new))
        (Rose (O.faults out.old) (O.faults out.new)) result }

    // With `run`, where the counts of the shelf, the input and the output don't rise, it has told
    // whatever story the semantics has of the text over the trace, but for want of memory.
    ensures complete { (name text : List ℕ) (most : ℕ)
        → task_meant words.now ≡ Some (name, run_task most) → HasText (F.texts shelf.old) name text
        →
        (m : ModuleTree) (trace : List ℕ) → IsAccepted Cells text m → S.left input.old ≡ Some trace
        →
        ¬ (Rose (F.faults shelf.old) (F.faults shelf.new))
        → ¬ (Rose (S.faults input.old) (S.faults input.new))
        → ¬ (Rose (O.faults out.old) (O.faults out.new)) →
        (written : List (List ℕ)) (end : End)
        → Story (resolved_vars m) (resolved_body m) trace most written end →
        HasTold (O.stands out.old) (O.stands out.new) written end result }

    // With `check` it is said how many cells, registers and loose pairs of writes its module has.
    ensures size { (name text : List ℕ) (strict : Bool)
        → task_meant words.now ≡ Some (name, check_task strict)
        → HasText (F.texts shelf.old) name text →
        (m : ModuleTree) → IsAccepted (scrutiny_of strict) text m →
        IsExcused result (Rose (F.faults shelf.old) (F.faults shelf.new))
        ⊎ SaysSize m (O.stands out.old) (O.stands out.new)
        (Rose (O.faults out.old) (O.faults out.new)) result }

    // With `aif` the cells are written to which its module is compiled.
    ensures cells { (name text : List ℕ) → task_meant words.now ≡ Some (name, aif_task)
        → HasText (F.texts shelf.old) name text →
        (m : ModuleTree) → IsAccepted Cells text m →
        IsExcused result (Rose (F.faults shelf.old) (F.faults shelf.new))
        ⊎ WritesCells m (O.stands out.old) (O.stands out.new)
        (Rose (O.faults out.old) (O.faults out.new)) result }

    // With `load` it tells its story over the generated trace, of which the summary is put.
    ensures load { (name text : List ℕ) (seed steps : ℕ)
        → task_meant words.now ≡ Some (name, load_task seed steps)
        → HasText (F.texts shelf.old) name text →
        (m : ModuleTree) → IsAccepted Cells text m →
        IsExcused result (Rose (F.faults shelf.old) (F.faults shelf.new))
        ⊎ Loaded (resolved_vars m) (resolved_body m) seed steps (O.stands out.old)
        (O.stands out.new) (Rose (O.faults out.old) (O.faults out.new)) result }

    // With `convert` the trace is written anew in the format, step by step up to its end.
    ensures convert { (name text : List ℕ) (to : ℕ)
        → task_meant words.now ≡ Some (name, convert_task to)
        → HasText (F.texts shelf.old) name text →
        (m : ModuleTree) (trace : List ℕ) → IsAccepted Cells text m
        → S.left input.old ≡ Some trace →
        NewOutcome (format_of to) (resolved_vars m) trace (O.stands out.old) (O.stands out.new)
        (S.left input.new)
        (Rose (F.faults shelf.old) (F.faults shelf.new))
        (Rose (S.faults input.old) (S.faults input.new))
        (Rose (O.faults out.old) (O.faults out.new)) result }

    // With `run` it ends in a conflict only at the declaration of a variable that some loose pair
    // of writes writes, and never where the text is accepted with such pairs refused.
    ensures conflicts { (name text : List ℕ) (most : ℕ)
        → task_meant words.now ≡ Some (name, run_task most) → HasText (F.texts shelf.old) name text
        →
        (m : ModuleTree) (trace : List ℕ) → IsAccepted Cells text m → S.left input.old ≡ Some trace
        →
        (k : ℕ) (p : Place) → result ≡ Status.RunFault k Conflict p
        → FlaggedAt (resolved_vars m) (term_in m) p }
    ensures tight { (name text : List ℕ) (most : ℕ)
        → task_meant words.now ≡ Some (name, run_task most) → HasText (F.texts shelf.old) name text
        →
        (m : ModuleTree) (trace : List ℕ) → IsAccepted Strict text m → S.left input.old ≡ Some trace →
        (k : ℕ) (p : Place) → result ≢ Status.RunFault k Conflict p }

    // A failed read or write is counted, and each task ends with statuses of its own, over any
    // shelf, source and sinks.
    ensures read_fault { result ≡ Status.ReadFault
        → Rose (S.faults input.old) (S.faults input.new) }
    ensures write_fault { result ≡ Status.WriteFault → Rose (O.faults out.old) (O.faults out.new) }
    ensures possible { CanCome (task_meant words.now) result }

    // Before a task is begun nothing is taken and nothing put.
    ensures untouched { ComesBefore result → (input.new ≡ input.old) × (out.new ≡ out.old) }
    ensures reported { ¬ (Rose (E.faults report.old) (E.faults report.new))
        → Gains (E.stands report.old) (E.stands report.new) (report_line result) }
{
    let status = obey(alloc, words, shelf, input, out);
    let _ = put_report(&status, report);
    status
}
