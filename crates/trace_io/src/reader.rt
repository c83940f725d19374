//! The steps of a trace of either format, one after another.

ghost use Rattle.std.specs.Prelude.{◌≡◌, ◌≤◌, ◌⊎◌, ℕ, List, true, false, [], None, Some, length, IfOk, vec_capacity};
ghost use Rattle.quartz_expr.specs.Typed.{AreSound};
ghost use Rattle.trace_io.specs.declared.step.ReadStep.{ReadStep as Answer};
ghost use Rattle.trace_io.specs.declared.step.ReadStep.TheVariants.{Step};
ghost use Rattle.trace_io.specs.Lines.{words, text_in};
ghost use Rattle.trace_io.specs.Inputs.{input_types};
ghost use Rattle.trace_io.specs.Reading.{steps_of, behind_first};
ghost use Rattle.trace_io.specs.Held.{has_line_end};
ghost use Rattle.trace_io.specs.Header.{no_marks, names_by, Listed};
ghost use Rattle.trace_io.specs.Next.{ReadNext};
ghost use Rattle.trace_io.specs.Scan.{reads_by, Placed};
ghost use Rattle.trace_io.specs.Trace.{ReadTrace, coming, over_by};

use crate::field::Field;
use crate::fields::fields_of;
use crate::header::{Input, behind, inputs_of, is_header, read_names};
use crate::line::{read_fields, text_of};
use crate::lines::{Found, LineReader};
use crate::step::ReadStep;
use crate::types::types_of;
use outside::Source;
use quartz_tree::{Flow, NoMemory, Var};
use stage_rings::Packet;
use std::alloc::Global;
use std::marker::Model;

// The answer that a reader stays with behind this one.
fn stays_with(answer: ReadStep) -> Option<ReadStep>
    ensures { result ≡ over_by answer }
{
    match answer {
        ReadStep::Step => None,
        ReadStep::End | ReadStep::Bad | ReadStep::ReadFault => Some(answer),
    }
}

/// Reads a trace step by step, in the format of its first line.
#[derive(Debug, Drop)]
pub struct TraceReader {
    lines: LineReader,
    inputs: Vec<Input>,
    marks: Vec<bool>,
    fields: Vec<Field>,
    may_keep: bool,
    last: Vec<i64>,
    is_fresh: bool,
    over: Option<ReadStep>,
}

impl Model for TraceReader {
    ghost use Rattle.std.specs.Prelude.{◌≡◌, ◌≤◌, true, false, All, length, vec_capacity};
    ghost use Rattle.trace_io.specs.Header.{no_marks, unmarked_count};
    ghost use Rattle.trace_io.specs.Scan.{AreFields};
    ghost use Rattle.trace_io.specs.Trace.{Reader};

    ghost Value = { Reader };

    ghost view = { λ r. record {
      trail = record {
        course = record {
          held = r.lines;
          fields = r.fields.items;
          may_keep = r.may_keep;
          last = r.last.items;
        };
        inputs = r.inputs.items;
        is_fresh = r.is_fresh;
      };
      over = r.over;
    } };

    ghost invariant = { λ r. AreFields (length r.last.items) r.fields.items
        × All (λ i. AreFields (length r.last.items) i.fields) r.inputs.items
        × (length r.inputs.items ≡ length r.marks.items)
        × (unmarked_count r.inputs.items r.marks.items ≤ vec_capacity r.fields)
        × (r.is_fresh ≡ true → (r.marks.items ≡ no_marks r.inputs.items) × (r.may_keep ≡ false)) };
}

impl TraceReader {
    /// A reader for the inputs among these variables. All its memory is taken here.
    pub fn new(alloc: Global, vars: &[Var]) -> Result<TraceReader, NoMemory>
        requires { AreSound vars.now }
        ensures means { IfOk result
            (λ r. (ls : List (List ℕ)) → coming r.trail ls ≡ steps_of vars.now ls) }
        ensures holds { IfOk result
            (λ r. r.trail.course.held ≡ record { line = []; waiting = []; ended = false }) }
        ensures begins { IfOk result (λ r. (r.trail.is_fresh ≡ true) × (r.over ≡ None)) }
        ensures count { IfOk result
            (λ r. length r.trail.course.last ≡ length (input_types vars.now)) }
    {
        let types = types_of(alloc, vars, Flow::Input)?;
        let fields = fields_of(alloc, &types)?;
        let last = vec![in alloc; 0; types.len()]?;
        let inputs = inputs_of(alloc, vars)?;
        let marks = vec![in alloc; false; inputs.len()]?;
        let lines = LineReader::new(alloc)?;
        Ok(TraceReader {
            lines,
            inputs,
            marks,
            fields,
            may_keep: false,
            last,
            is_fresh: true,
            over: None,
        })
    }

    /// How many values a packet must have room for.
    pub fn count(&self) -> usize
        ensures { result ≡ length self.now.trail.course.last }
    {
        self.last.len()
    }

    // Reads the values of the line that is held into the packet.
    fn read_values(&mut self, into: &mut Packet) -> bool
        requires { length self.old.trail.course.last ≤ vec_capacity into.old.values }
        ensures read { Placed
            (reads_by self.old.trail.course.may_keep self.old.trail.course.fields
            (words (text_in self.old.trail.course.held.line)) self.old.trail.course.last)
            result self.new.trail.course.last }
        ensures given { result ≡ true → into.new.values.items ≡ self.new.trail.course.last }
        ensures held { self.new.trail.course.held ≡ self.old.trail.course.held }
        ensures fields { (self.new.trail.course.fields ≡ self.old.trail.course.fields)
            × (self.new.trail.course.may_keep ≡ self.old.trail.course.may_keep) }
        ensures long { length self.new.trail.course.last ≡ length self.old.trail.course.last }
        ensures begun { self.new.trail.is_fresh ≡ false }
        ensures room { vec_capacity into.old.values ≤ vec_capacity into.new.values }
        ensures packet { (into.new.step ≡ into.old.step) × (into.new.body ≡ into.old.body) }
    {
        self.is_fresh = false;
        let text = text_of(self.lines.line());
        if !read_fields(&self.fields, self.may_keep, text, &mut self.last) {
            return false;
        }
        into.values.clear();
        into.values.extend_from_slice(&self.last).unwrap();
        true
    }

    // Reads a step behind the first line.
    fn read_next<S: Source>(&mut self, input: &mut S, into: &mut Packet) -> ReadStep
        requires { length self.old.trail.course.last ≤ vec_capacity into.old.values }
        ensures read { ReadNext self.old.trail.course (S.left input.old) (S.faults input.old)
            (S.calls input.old) result self.new.trail.course into.new.values.items
            (S.left input.new) (S.faults input.new) (S.calls input.new) }
        ensures stays { (has_line_end self.old.trail.course.held.waiting ≡ true)
            ⊎ (self.old.trail.course.held.ended ≡ true) → input.new ≡ input.old }
        ensures fields { (self.new.trail.course.fields ≡ self.old.trail.course.fields)
            × (self.new.trail.course.may_keep ≡ self.old.trail.course.may_keep) }
        ensures long { length self.new.trail.course.last ≡ length self.old.trail.course.last }
        ensures begun { self.new.trail.is_fresh ≡ false }
        ensures room { vec_capacity into.old.values ≤ vec_capacity into.new.values }
        ensures packet { (into.new.step ≡ into.old.step) × (into.new.body ≡ into.old.body) }
    {
        self.is_fresh = false;
        match self.lines.read_line(input) {
            Found::Line => {
                if !self.read_values(into) {
                    return ReadStep::Bad;
                }
                ReadStep::Step
            }
            Found::End => ReadStep::End,
            Found::TooLong => ReadStep::Bad,
            Found::Failed => ReadStep::ReadFault,
        }
    }

    // Takes the header that is held, and answers whether it is one.
    fn take_header(&mut self) -> bool
        requires { self.old.trail.is_fresh ≡ true }
        ensures named { Listed
            (names_by self.old.trail.inputs (no_marks self.old.trail.inputs) []
            (words (behind_first
            (text_in self.old.trail.course.held.line)))) result self.new.trail.course.fields }
        ensures keeps { self.new.trail.course.may_keep ≡ result }
        ensures same { (self.new.trail.course.held ≡ self.old.trail.course.held)
            × (self.new.trail.course.last ≡ self.old.trail.course.last) }
        ensures begun { self.new.trail.is_fresh ≡ false }
    {
        self.is_fresh = false;
        let names = behind(text_of(self.lines.line()));
        self.may_keep = read_names(&self.inputs, names, &mut self.marks, &mut self.fields);
        self.may_keep
    }

    // Reads the first line, and where that is a header the first step behind it.
    fn read_first<S: Source>(&mut self, input: &mut S, into: &mut Packet) -> ReadStep
        requires fresh { self.old.trail.is_fresh ≡ true }
        requires room { length self.old.trail.course.last ≤ vec_capacity into.old.values }
        ensures read { ReadTrace self.old.trail (S.left input.old) (S.faults input.old)
            (S.calls input.old) result self.new.trail into.new.values.items (S.left input.new)
            (S.faults input.new) (S.calls input.new) }
        ensures begun { result ≡ Step → self.new.trail.is_fresh ≡ false }
        ensures long { length self.new.trail.course.last ≡ length self.old.trail.course.last }
        ensures room { vec_capacity into.old.values ≤ vec_capacity into.new.values }
        ensures packet { (into.new.step ≡ into.old.step) × (into.new.body ≡ into.old.body) }
    {
        match self.lines.read_line(input) {
            Found::Line => {
                if is_header(self.lines.line()) {
                    if !self.take_header() {
                        return ReadStep::Bad;
                    }
                    return self.read_next(input, into);
                }
                if !self.read_values(into) {
                    return ReadStep::Bad;
                }
                ReadStep::Step
            }
            Found::End => ReadStep::End,
            Found::TooLong => ReadStep::Bad,
            Found::Failed => ReadStep::ReadFault,
        }
    }

    // Reads a step, the first one or one behind it.
    fn read_any<S: Source>(&mut self, input: &mut S, into: &mut Packet) -> ReadStep
        requires { length self.old.trail.course.last ≤ vec_capacity into.old.values }
        ensures read { ReadTrace self.old.trail (S.left input.old) (S.faults input.old)
            (S.calls input.old) result self.new.trail into.new.values.items (S.left input.new)
            (S.faults input.new) (S.calls input.new) }
        ensures stays { self.old.trail.is_fresh ≡ false
            → (has_line_end self.old.trail.course.held.waiting ≡ true)
            ⊎ (self.old.trail.course.held.ended ≡ true) → input.new ≡ input.old }
        ensures begun { result ≡ Step → self.new.trail.is_fresh ≡ false }
        ensures long { length self.new.trail.course.last ≡ length self.old.trail.course.last }
        ensures room { vec_capacity into.old.values ≤ vec_capacity into.new.values }
        ensures packet { (into.new.step ≡ into.old.step) × (into.new.body ≡ into.old.body) }
    {
        if self.is_fresh {
            self.read_first(input, into)
        } else {
            self.read_next(input, into)
        }
    }

    /// Reads the next step into a packet, which has room for the inputs' values. The first call
    /// takes the header too, where there is one. Later calls do not ask the source where a whole
    /// line is held, or where it has ended. An answer other than `Step` stays the answer to each
    /// later call, and nothing is read any more.
    pub fn read_step<S: Source>(&mut self, input: &mut S, into: &mut Packet) -> ReadStep
        requires { length self.old.trail.course.last ≤ vec_capacity into.old.values }
        ensures read { self.old.over ≡ None → ReadTrace self.old.trail (S.left input.old)
            (S.faults input.old) (S.calls input.old) result self.new.trail into.new.values.items
            (S.left input.new) (S.faults input.new) (S.calls input.new) }
        ensures again { (answer : Answer) → self.old.over ≡ Some answer → (result ≡ answer)
            × (self.new ≡ self.old) × (input.new ≡ input.old) }
        ensures over { self.old.over ≡ None → self.new.over ≡ over_by result }
        ensures stays { self.old.trail.is_fresh ≡ false
            → (has_line_end self.old.trail.course.held.waiting ≡ true)
            ⊎ (self.old.trail.course.held.ended ≡ true) → input.new ≡ input.old }
        ensures begun { self.old.over ≡ None → result ≡ Step → self.new.trail.is_fresh ≡ false }
        ensures long { length self.new.trail.course.last ≡ length self.old.trail.course.last }
        ensures room { vec_capacity into.old.values ≤ vec_capacity into.new.values }
        ensures packet { (into.new.step ≡ into.old.step) × (into.new.body ≡ into.old.body) }
    {
        if let Some(answer) = self.over {
            return answer;
        }
        let answer = self.read_any(input, into);
        self.over = stays_with(answer);
        answer
    }
}
