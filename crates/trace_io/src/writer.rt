//! The lines of steps' outputs.

ghost use Rattle.std.specs.Prelude.{◌≡◌, ◌≤◌, ◌+◌, ◌*◌, ◌++◌, ◌∷◌, ◌==◌, true, length, All, IfOk, vec_capacity, if◌then◌else◌};
ghost use Rattle.outside.specs.Puts.{Puts};
ghost use Rattle.quartz_expr.specs.Intervals.{base_interval, is_in, is_sound_base};
ghost use Rattle.quartz_expr.specs.Typed.{AreSound};
ghost use Rattle.trace_io.specs.Values.{value_text, in_range};
ghost use Rattle.trace_io.specs.Inputs.{output_types};
ghost use Rattle.trace_io.specs.Writing.{line_of_types, all_in_range};

use crate::types::types_of;
use crate::value::{is_in_range, push_value};
use outside::{Failed, Sink, put_whole};
use quartz_tree::{Base, Flow, NoMemory, Var};
use stage_rings::Packet;
use std::alloc::Global;
use std::marker::Model;

// A value of a type has at most 34 bytes, and one blank or the line's end behind it.
pub(crate) const VALUE_ROOM: usize = 35;

// The value, or 0 where it is out of its type's range.
fn value_within(base: Base, value: i64) -> i64
    requires { is_sound_base base ≡ true }
    ensures value { result ≡ in_range base value }
    ensures within { is_in (base_interval base) result ≡ true }
{
    if is_in_range(base, value) { value } else { 0 }
}

// Adds a value to a line, behind a blank where it isn't the first.
fn push_separated(line: &mut Vec<u8>, is_first: bool, base: Base, value: i64)
    requires sound { is_sound_base base ≡ true }
    requires room { length line.old.items + 35 ≤ vec_capacity line.old }
    ensures text { line.new.items ≡ line.old.items
        ++ (if is_first then value_text base (in_range base value) else 32 ∷ value_text base
        (in_range base value)) }
    ensures size { length line.new.items ≤ length line.old.items + 35 }
    ensures room_stays { vec_capacity line.old ≤ vec_capacity line.new }
{
    if !is_first {
        line.push_reserved(b' ');
    }
    push_value(line, base, value_within(base, value));
}

// Makes the line of the values.
pub(crate) fn make_line(types: &[Base], values: &[i64], line: &mut Vec<u8>)
    requires sound { All (λ b. is_sound_base b ≡ true) types.now }
    requires long { length types.now ≤ length values.now }
    requires room { length types.now * 35 + 1 ≤ vec_capacity line.old }
    ensures text { line.new.items ≡ line_of_types types.now (all_in_range types.now values.now) }
    ensures room_stays { vec_capacity line.old ≤ vec_capacity line.new }
{
    line.clear();
    for (at, base) in types.iter().enumerate() {
        push_separated(line, at == 0, *base, values[at]);
    }
    line.push_reserved(b'\n');
}

/// Writes the lines of a trace of outputs.
#[derive(Debug, Drop)]
pub struct TraceWriter {
    types: Vec<Base>,
    line: Vec<u8>,
}

impl Model for TraceWriter {
    ghost use Rattle.std.specs.Prelude.{◌≡◌, ◌≤◌, ◌+◌, ◌*◌, true, List, All, length, vec_capacity};
    ghost use Rattle.quartz_tree.specs.declared.declare.Base.{Base};
    ghost use Rattle.quartz_expr.specs.Intervals.{is_sound_base};

    ghost Value = { List Base };

    ghost view = { λ w. w.types.items };

    ghost invariant = { λ w. All (λ b. is_sound_base b ≡ true) w.types.items
        × (length w.types.items * 35 + 1 ≤ vec_capacity w.line) };
}

impl TraceWriter {
    /// A writer of the outputs among these variables. All its memory is taken here.
    pub fn new(alloc: Global, vars: &[Var]) -> Result<TraceWriter, NoMemory>
        requires { AreSound vars.now }
        ensures { IfOk result (λ w. w ≡ output_types vars.now) }
    {
        let types = types_of(alloc, vars, Flow::Output)?;
        let room = types.len().checked_mul(VALUE_ROOM).ok_or(NoMemory)?;
        let line = Vec::with_capacity(alloc, room.checked_add(1).ok_or(NoMemory)?)?;
        Ok(TraceWriter { types, line })
    }

    /// How many values a packet must begin with.
    pub fn count(&self) -> usize
        ensures { result ≡ length self.now }
    {
        self.types.len()
    }

    /// Puts the line of the outputs' values, with which the packet's values begin. A value out of
    /// its type's range is put as 0.
    pub fn write_step<O: Sink>(&mut self, out: &mut O, from: &Packet) -> Result<(), Failed>
        requires { length self.old ≤ length from.now.values.items }
        ensures same { self.new ≡ self.old }
        ensures puts { Puts O.stands O.faults result out.old out.new
            (line_of_types self.old (all_in_range self.old from.now.values.items)) }
    {
        make_line(&self.types, &from.values, &mut self.line);
        put_whole(out, &self.line)
    }
}
