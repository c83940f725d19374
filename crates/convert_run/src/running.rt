//! Converting a trace: the loop over its steps.

ghost use Rattle.std.specs.Prelude.{◌≡◌, ◌≤◌, List, ℕ, Some, None, Ok, false, length, vec_capacity, IfOk, OnErr};
ghost use Rattle.outside.specs.Bytes.{Rose};
ghost use Rattle.quartz_expr.specs.Vars.{Vars};
ghost use Rattle.quartz_expr.specs.Typed.{AreSound};
ghost use Rattle.trace_io.specs.Held.{CalledAtMost};
ghost use Rattle.trace_writer.specs.declared.format.Format.{Format as TraceFormat};
ghost use Rattle.cell_run.specs.Told.{calls_of_run};
ghost use Rattle.convert_run.specs.Room.{IsRoomFor, Made};
ghost use Rattle.convert_run.specs.Told.{Converts, IsOfConvert};

use crate::room::{Room, room_for};
use outside::{Sink, Source, Status};
use quartz_tree::{NoMemory, Var};
use std::alloc::Global;
use trace_io::ReadStep;
use trace_writer::Format;

// Reads a step and makes its line, or answers with the status that ends converting there.
fn make_step<S: Source>(input: &mut S, room: &mut Room, step: u32) -> Result<(), Status>
    requires goes_on { room.old.reader.over ≡ None }
    requires room { length room.old.reader.trail.course.last ≤ vec_capacity room.old.packet.values }
    ensures made { Made step room.old.reader.trail room.old.writer (S.left input.old)
        (S.faults input.old) (S.calls input.old) result
        room.new.reader.trail room.new.writer room.new.packet.values.items
        (S.left input.new) (S.faults input.new) (S.calls input.new) }
    ensures goes_on { result ≡ Ok tt → room.new.reader.over ≡ None }
    ensures begun { result ≡ Ok tt → room.new.reader.trail.is_fresh ≡ false }
    ensures room_stays { length room.new.reader.trail.course.last
        ≤ vec_capacity room.new.packet.values }
{
    match room.reader.read_step(input, &mut room.packet) {
        ReadStep::Step => {
            if room.writer.make_line(&room.packet.values) {
                Ok(())
            } else {
                Err(Status::BadInput { step })
            }
        }
        ReadStep::End => Err(Status::Ok),
        ReadStep::Bad => Err(Status::BadInput { step }),
        ReadStep::ReadFault => Err(Status::ReadFault),
    }
}

// Converts a trace in this room, in at most so many steps.
fn convert_in<S: Source, O: Sink>(
    room: &mut Room,
    most_steps: u32,
    input: &mut S,
    out: &mut O,
) -> Status
    requires room { length room.old.reader.trail.course.last ≤ vec_capacity room.old.packet.values }
    requires goes_on { room.old.reader.over ≡ None }
    ensures input_counts { S.faults input.old ≤ S.faults input.new }
    ensures out_counts { O.faults out.old ≤ O.faults out.new }
    ensures asked { CalledAtMost (calls_of_run most_steps) (S.calls input.old) (S.calls input.new) }
    ensures of_convert { IsOfConvert result }
    ensures read_fault { result ≡ Status.ReadFault
        → Rose (S.faults input.old) (S.faults input.new) }
    ensures write_fault { result ≡ Status.WriteFault → Rose (O.faults out.old) (O.faults out.new) }
    ensures told { (f : TraceFormat) (vs : Vars) → AreSound vs → IsRoomFor f vs room.old
        → (trace : List ℕ) → S.left input.old ≡ Some trace →
        Converts f vs trace most_steps (O.stands out.old) (O.stands out.new) (S.left input.new)
        result }
{
    if let Err(_) = room.writer.put_line(out) {
        return Status::WriteFault;
    }
    for step in 0..most_steps {
        if let Err(status) = make_step(input, room, step) {
            return status;
        }
        if let Err(_) = room.writer.put_line(out) {
            return Status::WriteFault;
        }
    }
    match make_step(input, room, most_steps) {
        Ok(()) => Status::StepLimit,
        Err(status) => status,
    }
}

/// Writes a trace of the inputs among these variables anew in a format, in at most so many steps.
/// All its memory is taken before the header is put, and the header before the first read.
pub fn convert_trace<S: Source, O: Sink>(
    alloc: Global,
    vars: &[Var],
    format: Format,
    most_steps: u32,
    input: &mut S,
    out: &mut O,
) -> Result<Status, NoMemory>
    requires { AreSound vars.now }
    ensures input_counts { S.faults input.old ≤ S.faults input.new }
    ensures out_counts { O.faults out.old ≤ O.faults out.new }
    ensures asked { CalledAtMost (calls_of_run most_steps) (S.calls input.old) (S.calls input.new) }
    ensures no_memory { OnErr result ((input.new ≡ input.old) × (out.new ≡ out.old)) }
    ensures of_convert { IfOk result (λ s. IsOfConvert s) }
    ensures read_fault { IfOk result
        (λ s. s ≡ Status.ReadFault → Rose (S.faults input.old) (S.faults input.new)) }
    ensures write_fault { IfOk result
        (λ s. s ≡ Status.WriteFault → Rose (O.faults out.old) (O.faults out.new)) }
    ensures told { IfOk result (λ s. (trace : List ℕ) → S.left input.old ≡ Some trace →
        Converts format vars.now trace most_steps (O.stands out.old) (O.stands out.new)
        (S.left input.new) s) }
{
    let mut room = room_for(alloc, vars, format)?;
    let status = convert_in(&mut room, most_steps, input, out);
    Ok(status)
}
