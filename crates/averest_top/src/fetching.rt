//! A text on its way from the shelf to the module that is built of it.

ghost use Rattle.std.specs.Prelude.{◌≡◌, ◌≢◌, ◌≤◌, ◌⊎◌, List, ℕ, false, IfOk, length};
ghost use Rattle.outside.specs.Bytes.{Rose, Unfetched};
ghost use Rattle.trace_io.specs.Held.{CalledAtMost};
ghost use Rattle.averest_top.specs.Commands.{calls_of, reads_trace};
ghost use Rattle.averest_top.specs.Promise.{CanComeOf, ComesBefore, HasText, LacksText, OfText, refusal_status};

use crate::doing::do_task;
use crate::task::Task;
use outside::{Shelf, Sink, Source, Status};
use quartz_build::{BuildFault, build};
use quartz_tree::{Name, NoMemory};
use std::alloc::Global;

// A text has at most one byte less.
const TEXT_ROOM: usize = 65537;

/// The status of a text that is not built.
pub(crate) fn status_of_fault(fault: BuildFault) -> Status
    ensures { result ≡ refusal_status fault }
{
    match fault {
        BuildFault::Refused { rule, place } => Status::Refused { rule, place },
        BuildFault::NoMemory => Status::NoMemory,
    }
}

// Builds a text and does a task with it.
fn do_text<S: Source, O: Sink>(
    alloc: Global,
    text: &[u8],
    task: Task,
    input: &mut S,
    out: &mut O,
) -> Status
    ensures input_counts { S.faults input.old ≤ S.faults input.new }
    ensures out_counts { O.faults out.old ≤ O.faults out.new }
    ensures asked { CalledAtMost (calls_of task) (S.calls input.old) (S.calls input.new) }
    ensures untaken { reads_trace task ≡ false → input.new ≡ input.old }
    ensures read_fault { result ≡ Status.ReadFault
        → Rose (S.faults input.old) (S.faults input.new) }
    ensures write_fault { result ≡ Status.WriteFault → Rose (O.faults out.old) (O.faults out.new) }
    ensures possible { CanComeOf task result }
    ensures no_usage { result ≢ Status.Usage }
    ensures available { result ≢ Status.ModuleUnavailable }
    ensures untouched { ComesBefore result → (input.new ≡ input.old) × (out.new ≡ out.old) }
    ensures of_text { OfText text.now task (S.left input.old) (S.left input.new) (O.stands out.old)
        (O.stands out.new) ⊥ (Rose (S.faults input.old) (S.faults input.new))
        (Rose (O.faults out.old) (O.faults out.new)) result }
{
    match build(alloc, text, task.wants_pairs(), task.is_strict()) {
        Ok(built) => do_task(alloc, task, &built, input, out),
        Err(fault) => status_of_fault(fault),
    }
}

// The room for a text, and for one byte more.
fn text_room(alloc: Global) -> Result<Vec<u8>, NoMemory>
    ensures { IfOk result (λ room. length room.items ≡ 65537) }
{
    Ok(vec![in alloc; 0; TEXT_ROOM]?)
}

// Does a task with the module of that name, whose text is fetched into the room.
fn do_fetched<F: Shelf, S: Source, O: Sink>(
    alloc: Global,
    name: &Name,
    task: Task,
    room: &mut [u8],
    shelf: &mut F,
    input: &mut S,
    out: &mut O,
) -> Status
    requires { length room.old ≡ 65537 }
    ensures shelf_counts { F.faults shelf.old ≤ F.faults shelf.new }
    ensures input_counts { S.faults input.old ≤ S.faults input.new }
    ensures out_counts { O.faults out.old ≤ O.faults out.new }
    ensures asked { CalledAtMost (calls_of task) (S.calls input.old) (S.calls input.new) }
    ensures untaken { reads_trace task ≡ false → input.new ≡ input.old }
    ensures read_fault { result ≡ Status.ReadFault
        → Rose (S.faults input.old) (S.faults input.new) }
    ensures write_fault { result ≡ Status.WriteFault → Rose (O.faults out.old) (O.faults out.new) }
    ensures possible { CanComeOf task result }
    ensures no_usage { result ≢ Status.Usage }
    ensures unavailable { result ≡ Status.ModuleUnavailable
        → Unfetched (F.texts shelf.old) name.now (F.faults shelf.old) (F.faults shelf.new) }
    ensures absent { LacksText (F.texts shelf.old) name.now → result ≡ Status.ModuleUnavailable }
    ensures untouched { ComesBefore result → (input.new ≡ input.old) × (out.new ≡ out.old) }
    ensures of_text { (text : List ℕ) → HasText (F.texts shelf.old) name.now text →
        OfText text task (S.left input.old) (S.left input.new) (O.stands out.old) (O.stands out.new)
        (Rose (F.faults shelf.old) (F.faults shelf.new))
        (Rose (S.faults input.old) (S.faults input.new))
        (Rose (O.faults out.old) (O.faults out.new)) result }
{
    match shelf.fetch(name.text(), room) {
        Ok(count) => do_text(alloc, &room[..count], task, input, out),
        Err(_) => Status::ModuleUnavailable,
    }
}

/// Does a task with the module of that name.
pub(crate) fn do_module<F: Shelf, S: Source, O: Sink>(
    alloc: Global,
    name: &Name,
    task: Task,
    shelf: &mut F,
    input: &mut S,
    out: &mut O,
) -> Status
    ensures shelf_counts { F.faults shelf.old ≤ F.faults shelf.new }
    ensures input_counts { S.faults input.old ≤ S.faults input.new }
    ensures out_counts { O.faults out.old ≤ O.faults out.new }
    ensures asked { CalledAtMost (calls_of task) (S.calls input.old) (S.calls input.new) }
    ensures untaken { reads_trace task ≡ false → input.new ≡ input.old }
    ensures read_fault { result ≡ Status.ReadFault
        → Rose (S.faults input.old) (S.faults input.new) }
    ensures write_fault { result ≡ Status.WriteFault → Rose (O.faults out.old) (O.faults out.new) }
    ensures possible { CanComeOf task result }
    ensures no_usage { result ≢ Status.Usage }
    ensures unavailable { result ≡ Status.ModuleUnavailable
        → Unfetched (F.texts shelf.old) name.now (F.faults shelf.old) (F.faults shelf.new) }
    ensures absent { LacksText (F.texts shelf.old) name.now
        → (result ≡ Status.ModuleUnavailable) ⊎ (result ≡ Status.NoMemory) }
    ensures untouched { ComesBefore result → (input.new ≡ input.old) × (out.new ≡ out.old) }
    ensures of_text { (text : List ℕ) → HasText (F.texts shelf.old) name.now text →
        OfText text task (S.left input.old) (S.left input.new) (O.stands out.old) (O.stands out.new)
        (Rose (F.faults shelf.old) (F.faults shelf.new))
        (Rose (S.faults input.old) (S.faults input.new))
        (Rose (O.faults out.old) (O.faults out.new)) result }
{
    match text_room(alloc) {
        Ok(mut room) => do_fetched(alloc, name, task, &mut room, shelf, input, out),
        Err(_) => Status::NoMemory,
    }
}
