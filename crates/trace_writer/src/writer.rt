//! A writer of traces of inputs.

ghost use Rattle.std.specs.Prelude.{◌≡◌, ◌≤◌, take, vec_capacity, IfOk};
ghost use Rattle.outside.specs.Puts.{Puts};
ghost use Rattle.quartz_expr.specs.Typed.{AreSound};
ghost use Rattle.trace_io.specs.Lines.{is_short};
ghost use Rattle.trace_io.specs.Inputs.{input_types};
ghost use Rattle.trace_io.specs.Reading.{zeros};
ghost use Rattle.trace_writer.specs.Anew.{new_header};
ghost use Rattle.trace_writer.specs.Writer.{pen_after};

use crate::format::Format;
use crate::header::push_header;
use crate::word::{WORD_ROOM, make_line};
use outside::{Failed, Sink, put_whole};
use quartz_tree::{Base, Flow, NoMemory, Var};
use std::alloc::Global;
use std::marker::Model;
use trace_io::types_of;

// The most bytes that a line has together with its LF.
const LONGEST: usize = 65537;

// Keeps the values of so many elements in place of those that stand there.
fn keep_values(last: &mut Vec<i64>, values: &[i64], count: usize)
    requires { count ≤ vec_capacity last.old }
    ensures kept { last.new.items ≡ take count values.now }
    ensures room_stays { vec_capacity last.old ≤ vec_capacity last.new }
{
    last.clear();
    last.extend_from_slice(&values[..count.min(values.len())])
        .unwrap();
}

/// Writes the header and the lines of a trace of inputs, and keeps the last step's values.
#[derive(Debug, Drop)]
pub struct InputWriter {
    format: Format,
    types: Vec<Base>,
    last: Vec<i64>,
    line: Vec<u8>,
}

impl Model for InputWriter {
    ghost use Rattle.std.specs.Prelude.{◌≡◌, ◌≤◌, ◌+◌, ◌*◌, true, All, length, vec_capacity};
    ghost use Rattle.quartz_expr.specs.Intervals.{is_sound_base};
    ghost use Rattle.trace_writer.specs.Writer.{Pen};

    ghost Value = { Pen };

    ghost view = { λ w. record {
      format = w.format;
      types = w.types.items;
      last = w.last.items;
      line = w.line.items;
    } };

    ghost invariant = { λ w. All (λ b. is_sound_base b ≡ true) w.types.items
        × (length w.types.items ≤ vec_capacity w.last)
        × (length w.types.items * 35 + 1 ≤ vec_capacity w.line) };
}

impl InputWriter {
    /// A writer of the inputs among these variables, which holds the header. All its memory is
    /// taken here.
    pub fn new(alloc: Global, vars: &[Var], format: Format) -> Result<InputWriter, NoMemory>
        requires { AreSound vars.now }
        ensures { IfOk result (λ w. w ≡ record {
          format = format;
          types = input_types vars.now;
          last = zeros vars.now;
          line = new_header format vars.now;
        }) }
    {
        let types = types_of(alloc, vars, Flow::Input)?;
        let last = vec![in alloc; 0; types.len()]?;
        let room = types.len().checked_mul(WORD_ROOM).ok_or(NoMemory)?;
        let mut line = Vec::with_capacity(alloc, room.checked_add(1).ok_or(NoMemory)?)?;
        push_header(&mut line, format, vars)?;
        Ok(InputWriter {
            format,
            types,
            last,
            line,
        })
    }

    /// Makes the line of a step, and answers whether it has at most 65,536 bytes before its LF. A
    /// value out of its type's range counts as 0. The values are the last ones from now on.
    pub fn make_line(&mut self, values: &[i64]) -> bool
        ensures short { result ≡ is_short self.new.line }
        ensures made { self.new ≡ pen_after self.old values.now }
    {
        make_line(self.format, &self.types, &self.last, values, &mut self.line);
        keep_values(&mut self.last, values, self.types.len());
        self.line.len() <= LONGEST
    }

    /// Puts what is held: the header, or the line that was made last.
    pub fn put_line<O: Sink>(&self, out: &mut O) -> Result<(), Failed>
        ensures { Puts O.stands O.faults result out.old out.new self.now.line }
    {
        put_whole(out, &self.line)
    }
}
