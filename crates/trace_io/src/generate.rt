//! Traces that a seed determines.

ghost use Rattle.std.specs.Prelude.{◌≡◌, ◌≤◌, ◌<◌, ◌⊎◌, ◌+◌, ◌*◌, ◌^◌, true, [], length, All, IfOk, Some, None, vec_capacity};
ghost use Rattle.quartz_expr.specs.Intervals.{base_interval, is_sound_base};
ghost use Rattle.quartz_expr.specs.Typed.{AreSound};
ghost use Rattle.trace_io.specs.Inputs.{input_types};
ghost use Rattle.trace_io.specs.Writing.{generated, next_number, size_of, drawn, drawn_values, number_behind, line_of_types};
ghost use Rattle.trace_io.specs.Generator.{bytes_left};

use crate::types::types_of;
use crate::writer::{VALUE_ROOM, make_line};
use outside::{Failed, Source};
use quartz_tree::{Base, Flow, NoMemory, Var};
use std::alloc::Global;
use std::marker::Model;

fn number_after(number: u64) -> u64
    ensures { result ≡ next_number number }
{
    let product = u128::from(number) * 6364136223846793005;
    ((product + 1442695040888963407) % (1 << 64)) as u64
}

// How many values a type has.
fn count_values(base: Base) -> u64
    requires { is_sound_base base ≡ true }
    ensures value { result ≡ size_of (base_interval base) }
    ensures some { (0 < result) × (result ≤ 2 ^ 32) }
{
    match base {
        Base::Bool => 2,
        Base::Nat(count) => count as u64,
        Base::Int(count) => 2 * count as u64,
        Base::Bv(width) => 1 << (width as u32),
    }
}

// The value that a number gives in a type's range.
fn draw(base: Base, number: u64) -> i64
    requires { is_sound_base base ≡ true }
    ensures { result ≡ drawn (base_interval base) number }
{
    let offset = ((number >> 33) % count_values(base)) as i64;
    match base {
        Base::Int(count) => offset - count as i64,
        _ => offset,
    }
}

// Draws a value for each type, each from the next number, and gives the last number.
fn draw_values(types: &[Base], number: u64, values: &mut Vec<i64>) -> u64
    requires sound { All (λ b. is_sound_base b ≡ true) types.now }
    requires room { length types.now ≤ vec_capacity values.old }
    ensures values { values.new.items ≡ drawn_values types.now number }
    ensures number { result ≡ number_behind types.now number }
    ensures long { length values.new.items ≡ length types.now }
    ensures room_stays { vec_capacity values.old ≤ vec_capacity values.new }
{
    values.clear();
    let mut last = number;
    for base in types {
        last = number_after(last);
        values.push_reserved(draw(*base, last));
    }
    last
}

/// A source of generated lines for a module's inputs, which never fails.
#[derive(Debug, Drop)]
pub struct TraceGen {
    types: Vec<Base>,
    number: u64,
    steps: u32,
    values: Vec<i64>,
    line: Vec<u8>,
    at: usize,
}

impl Model for TraceGen {
    ghost use Rattle.std.specs.Prelude.{◌≡◌, ◌≤◌, ◌+◌, ◌*◌, true, All, drop, length, vec_capacity};
    ghost use Rattle.quartz_expr.specs.Intervals.{is_sound_base};
    ghost use Rattle.trace_io.specs.Generator.{Generator};

    ghost Value = { Generator };

    ghost view = { λ s. record {
      rest = drop s.at s.line.items;
      types = s.types.items;
      number = s.number;
      steps = s.steps;
    } };

    ghost invariant = { λ s. All (λ b. is_sound_base b ≡ true) s.types.items
        × (length s.types.items ≤ vec_capacity s.values)
        × (length s.types.items * 35 + 1 ≤ vec_capacity s.line) × (s.at ≤ length s.line.items) };
}

impl TraceGen {
    /// A source of so many lines for the inputs among these variables. All its memory is taken
    /// here.
    pub fn new(alloc: Global, vars: &[Var], seed: u64, steps: u32) -> Result<TraceGen, NoMemory>
        requires { AreSound vars.now }
        ensures { IfOk result
            (λ g. g ≡ record {
              rest = [];
              types = input_types vars.now;
              number = seed;
              steps = steps;
            }) }
    {
        let types = types_of(alloc, vars, Flow::Input)?;
        let room = types.len().checked_mul(VALUE_ROOM).ok_or(NoMemory)?;
        let line = Vec::with_capacity(alloc, room.checked_add(1).ok_or(NoMemory)?)?;
        let values = Vec::with_capacity(alloc, types.len())?;
        Ok(TraceGen {
            types,
            number: seed,
            steps,
            values,
            line,
            at: 0,
        })
    }

    // Makes the next line.
    fn make_next(&mut self)
        requires none { self.old.rest ≡ [] }
        requires some { 0 < self.old.steps }
        ensures same { bytes_left self.new ≡ bytes_left self.old }
        ensures begun { 0 < length self.new.rest }
    {
        self.number = draw_values(&self.types, self.number, &mut self.values);
        make_line(&self.types, &self.values, &mut self.line);
        self.at = 0;
        self.steps -= 1;
    }
}

impl TraceGen {
    // Makes the next line where one is to come and none was begun.
    fn begin_line(&mut self)
        ensures same { bytes_left self.new ≡ bytes_left self.old }
        ensures begun { (0 < length self.new.rest) ⊎ (bytes_left self.new ≡ []) }
    {
        if self.at == self.line.len() && self.steps > 0 {
            self.make_next();
        }
    }
}

impl Source for TraceGen {
    ghost left = { λ s. Some (bytes_left s) };

    ghost faults = { λ _. 0 };

    ghost calls = { λ _. None };

    fn take(&mut self, buf: &mut [u8]) -> Result<usize, Failed> {
        self.begin_line();
        let most = buf.len().min(self.line.len() - self.at);
        buf[..most].copy_from_slice(&self.line[self.at..self.at + most]);
        self.at += most;
        Ok(most)
    }
}
