//! A run of cells over a trace: the loop over its macro steps.

ghost use Rattle.std.specs.Prelude.{◌≡◌, ◌≤◌, ◌<◌, ◌+◌, ◌*◌, ◌^◌, List, ℕ, Some, None, false, length, map, vec_capacity, IfOk, OnErr, Ok, Err};
ghost use Rattle.outside.specs.Bytes.{Rose};
ghost use Rattle.quartz_tree.specs.Kernel.{Kernel};
ghost use Rattle.quartz_tree.specs.Least.{least_fault};
ghost use Rattle.quartz_expr.specs.Vars.{Vars};
ghost use Rattle.quartz_expr.specs.Typed.{AreSound};
ghost use Rattle.absence_reaction.specs.Meaning.{raised};
ghost use Rattle.aif_cells.specs.Built.{all_defined};
ghost use Rattle.aif_cells.specs.Order.{IsOrder};
ghost use Rattle.aif_cells.specs.Solution.{IsSolution};
ghost use Rattle.aif_cells.specs.Worth.{listed};
ghost use Rattle.trace_io.specs.Held.{CalledAtMost};
ghost use Rattle.trace_io.specs.Inputs.{output_types};
ghost use Rattle.cell_run.specs.Machine.{Executes, next_values, shown};
ghost use Rattle.cell_run.specs.Room.{CameTo, HasRoomFor, IsRoomFor};
ghost use Rattle.cell_run.specs.Told.{IsOfRun, Tells, calls_of_run};

use crate::room::{Room, room_for, show};
use aif_cells::{Aif, Order};
use cell_values::{evaluate, least_raised, next_registers};
use outside::{Sink, Source, Status};
use quartz_tree::{Fault, NoMemory};
use std::alloc::Global;
use std::mem;
use trace_io::ReadStep;

// Reads the inputs of a step, or answers with the status that ends the run there.
fn read_step<S: Source>(input: &mut S, room: &mut Room, step: u32) -> Result<(), Status>
    requires goes_on { room.old.reader.over ≡ None }
    requires room { length room.old.reader.trail.course.last ≤ vec_capacity room.old.packet.values }
    ensures came { CameTo step room.old.reader.trail (S.left input.old) (S.faults input.old)
        (S.calls input.old) result
        room.new.reader.trail room.new.packet.values.items
        (S.left input.new) (S.faults input.new) (S.calls input.new) }
    ensures goes_on { result ≡ Ok tt → room.new.reader.over ≡ None }
    ensures begun { result ≡ Ok tt → room.new.reader.trail.is_fresh ≡ false }
    ensures registers_stay { room.new.registers.items ≡ room.old.registers.items }
    ensures room_stays { (aif : Aif) → HasRoomFor aif room.old → HasRoomFor aif room.new }
{
    match room.reader.read_step(input, &mut room.packet) {
        ReadStep::Step => Ok(()),
        ReadStep::End => Err(Status::Ok),
        ReadStep::Bad => Err(Status::BadInput { step }),
        ReadStep::ReadFault => Err(Status::ReadFault),
    }
}

// Computes the cells of a macro step from the values that were read, and answers its least fault.
fn react(aif: &Aif, order: &Order, room: &mut Room) -> Option<Fault>
    requires order { IsOrder (all_defined aif.now.cells) order.now.cells }
    requires room { HasRoomFor aif.now room.old }
    ensures solution { IsSolution
        (listed room.old.packet.values.items room.old.registers.items room.new.cells.items)
        (all_defined aif.now.cells) }
    ensures fault { result ≡ least_fault (raised
        (listed room.old.packet.values.items room.old.registers.items room.new.cells.items)
        aif.now.monitors) }
    ensures stays { (room.new.registers.items ≡ room.old.registers.items)
        × (room.new.packet ≡ room.old.packet) × (room.new.reader ≡ room.old.reader) }
    ensures room_stays { HasRoomFor aif.now room.new }
{
    evaluate(
        aif,
        order,
        &room.packet.values,
        &room.registers,
        &mut room.cells,
    );
    least_raised(aif, &room.cells)
}

// Goes on to the next macro step: its registers, and the outputs' values to be written.
fn go_on(aif: &Aif, room: &mut Room)
    requires room { HasRoomFor aif.now room.old }
    ensures registers { room.new.registers.items ≡ next_values
        (listed room.old.packet.values.items room.old.registers.items room.old.cells.items)
        aif.now.registers }
    ensures shows { room.new.packet.values.items ≡ shown aif.now.outputs room.old.cells.items }
    ensures reader_stays { room.new.reader ≡ room.old.reader }
    ensures room_stays { HasRoomFor aif.now room.new }
{
    next_registers(
        aif,
        &room.packet.values,
        &room.registers,
        &room.cells,
        &mut room.next,
    );
    mem::swap(&mut room.registers, &mut room.next);
    show(aif.outputs.as_slice(), &room.cells, &mut room.packet.values);
}

// Runs cells in their room, in at most so many steps.
fn run_in<S: Source, O: Sink>(
    aif: &Aif,
    order: &Order,
    room: &mut Room,
    most_steps: u32,
    input: &mut S,
    out: &mut O,
) -> Status
    requires vars { AreSound aif.now.vars }
    requires order { IsOrder (all_defined aif.now.cells) order.now.cells }
    requires outputs { length (output_types aif.now.vars) ≤ length aif.now.outputs }
    requires room { IsRoomFor aif.now room.old }
    ensures input_counts { S.faults input.old ≤ S.faults input.new }
    ensures out_counts { O.faults out.old ≤ O.faults out.new }
    ensures asked { CalledAtMost (calls_of_run most_steps) (S.calls input.old) (S.calls input.new) }
    ensures of_run { IsOfRun result }
    ensures read_fault { result ≡ Status.ReadFault
        → Rose (S.faults input.old) (S.faults input.new) }
    ensures write_fault { result ≡ Status.WriteFault → Rose (O.faults out.old) (O.faults out.new) }
    ensures told { (vs : Vars) (body : Kernel) → Executes vs body aif.now → (trace : List ℕ)
        → S.left input.old ≡ Some trace →
        Tells vs body trace most_steps (O.stands out.old) (O.stands out.new) (S.left input.new)
        result }
{
    for step in 0..most_steps {
        if let Err(status) = read_step(input, room, step) {
            return status;
        }
        if let Some(fault) = react(aif, order, room) {
            return Status::RunFault {
                step,
                kind: fault.kind,
                place: fault.place,
            };
        }
        go_on(aif, room);
        if let Err(_) = room.writer.write_step(out, &room.packet) {
            return Status::WriteFault;
        }
    }
    match read_step(input, room, most_steps) {
        Ok(()) => Status::StepLimit,
        Err(status) => status,
    }
}

/// Runs cells on a trace, one macro step after another, in at most so many steps. All its memory is
/// taken before the first read.
pub fn run_cells<S: Source, O: Sink>(
    alloc: Global,
    aif: &Aif,
    order: &Order,
    most_steps: u32,
    input: &mut S,
    out: &mut O,
) -> Result<Status, NoMemory>
    requires vars { AreSound aif.now.vars }
    requires order { IsOrder (all_defined aif.now.cells) order.now.cells }
    requires outputs { length (output_types aif.now.vars) ≤ length aif.now.outputs }
    ensures input_counts { S.faults input.old ≤ S.faults input.new }
    ensures out_counts { O.faults out.old ≤ O.faults out.new }
    ensures asked { CalledAtMost (calls_of_run most_steps) (S.calls input.old) (S.calls input.new) }
    ensures no_memory { OnErr result ((input.new ≡ input.old) × (out.new ≡ out.old)) }
    ensures of_run { IfOk result (λ s. IsOfRun s) }
    ensures read_fault { IfOk result
        (λ s. s ≡ Status.ReadFault → Rose (S.faults input.old) (S.faults input.new)) }
    ensures write_fault { IfOk result
        (λ s. s ≡ Status.WriteFault → Rose (O.faults out.old) (O.faults out.new)) }
    ensures told { IfOk result
        (λ s. (vs : Vars) (body : Kernel) → Executes vs body aif.now → (trace : List ℕ)
        → S.left input.old ≡ Some trace →
        Tells vs body trace most_steps (O.stands out.old) (O.stands out.new) (S.left input.new) s) }
{
    let mut room = room_for(alloc, aif)?;
    let status = run_in(aif, order, &mut room, most_steps, input, out);
    Ok(status)
}
