//! The lines of a source, one after another.

ghost use Rattle.std.specs.Prelude.{◌≡◌, ◌≤◌, ◌<◌, ◌+◌, ◌++◌, ◌↔◌, ◌⊎◌, ◌==◌, if◌then◌else◌, ℕ, List, [], true, false, length, take, drop, Some, IfOk, OnErr, vec_capacity};
ghost use Rattle.outside.specs.Bytes.{Rose, Counted};
ghost use Rattle.trace_io.specs.Held.{has_line_end, Came, Read};

use outside::{Failed, Source};
use quartz_tree::NoMemory;
use std::alloc::Global;
use std::marker::Model;

// The most bytes that stand in a line before its LF.
const LONGEST: usize = 65536;

// How many bytes are asked for at once.
const CHUNK: usize = 65536;

/// What came of reading a line.
#[derive(Clone, Copy, Debug, PartialEq, Eq)]
pub enum Found {
    /// A line, or the last piece of the source.
    Line,
    /// No byte was left.
    End,
    /// A line with more than 65,536 bytes before its LF.
    TooLong,
    /// A read failed.
    Failed,
}

// How many bytes were added to a line, and whether the last of them is its LF.
#[derive(Clone, Copy, Debug, PartialEq, Eq)]
struct Part {
    count: usize,
    closes: bool,
}

// Adds bytes to a line, up to its LF or until it is too long.
fn extend_line(line: &mut Vec<u8>, bytes: &[u8]) -> Part
    requires open { has_line_end line.old.items ≡ false }
    requires short { length line.old.items ≤ 65536 }
    requires room { 65537 ≤ vec_capacity line.old }
    ensures within { result.count ≤ length bytes.now }
    ensures added { line.new.items ≡ line.old.items ++ take result.count bytes.now }
    ensures came { Came result.closes line.new.items (drop result.count bytes.now) }
    ensures length { length line.new.items ≤ 65537 }
    ensures room_stays { vec_capacity line.old ≤ vec_capacity line.new }
{
    let mut count = 0;
    while count < bytes.len() && line.len() <= LONGEST {
        let byte = bytes[count];
        line.push_reserved(byte);
        count += 1;
        if byte == b'\n' {
            return Part {
                count,
                closes: true,
            };
        }
    }
    Part {
        count,
        closes: false,
    }
}

/// Reads a source line by line.
#[derive(Debug, Drop)]
pub struct LineReader {
    chunk: Vec<u8>,
    at: usize,
    upto: usize,
    line: Vec<u8>,
    ended: bool,
}

impl Model for LineReader {
    ghost use Rattle.std.specs.Prelude.{◌≤◌, ◌-◌, take, drop, length, vec_capacity};
    ghost use Rattle.trace_io.specs.Held.{Held};

    ghost Value = { Held };

    ghost view = { λ s. record {
      line = s.line.items;
      waiting = take (s.upto - s.at)
          (drop s.at s.chunk.items);
      ended = s.ended;
    } };

    ghost invariant = { λ s. (s.at ≤ s.upto) × (s.upto ≤ length s.chunk.items)
        × (1 ≤ length s.chunk.items) × (65537 ≤ vec_capacity s.line) };
}

impl LineReader {
    /// A reader that holds nothing. All its memory is taken here.
    pub fn new(alloc: Global) -> Result<LineReader, NoMemory>
        ensures { IfOk result (λ h. h ≡ record { line = []; waiting = []; ended = false }) }
    {
        Ok(LineReader {
            chunk: vec![in alloc; 0; CHUNK]?,
            at: 0,
            upto: 0,
            line: Vec::with_capacity(alloc, LONGEST + 1)?,
            ended: false,
        })
    }

    /// The line that was read last.
    pub fn line(&self) -> &[u8]
        ensures { result.now ≡ self.now.line }
    {
        &self.line
    }

    // Moves bytes that wait into the line, up to its LF, and answers whether that came.
    fn move_waiting(&mut self) -> bool
        requires open { has_line_end self.old.line ≡ false }
        requires short { length self.old.line ≤ 65536 }
        ensures kept { self.new.line ++ self.new.waiting ≡ self.old.line ++ self.old.waiting }
        ensures came { Came result self.new.line self.new.waiting }
        ensures within { length self.new.line ≤ 65537 }
        ensures same { self.new.ended ≡ self.old.ended }
    {
        let part = extend_line(&mut self.line, &self.chunk[self.at..self.upto]);
        self.at += part.count;
        part.closes
    }

    // Takes bytes from the source, where none wait.
    fn take_chunk<S: Source>(&mut self, input: &mut S) -> Result<usize, Failed>
        requires { self.old.waiting ≡ [] }
        ensures never_falls { S.faults input.old ≤ S.faults input.new }
        ensures counted { Counted (S.calls input.old) (S.calls input.new) }
        ensures line { self.new.line ≡ self.old.line }
        ensures count { IfOk result (λ n. length self.new.waiting ≡ n) }
        ensures ended { IfOk result
            (λ n. (self.new.ended ≡ true) ↔ ((n ≡ 0) ⊎ (self.old.ended ≡ true))) }
        ensures moved { IfOk result (λ n. (bytes : List ℕ) → S.left input.old ≡ Some bytes →
            (S.left input.new ≡ Some (drop n bytes)) × (self.new.waiting ≡ take n bytes)
            × ((n ≡ 0) ↔ (bytes ≡ []))) }
        ensures rose { OnErr result (Rose (S.faults input.old) (S.faults input.new)) }
        ensures same { OnErr result (self.new ≡ self.old) }
        ensures kept { OnErr result (S.left input.new ≡ S.left input.old) }
    {
        self.at = 0;
        self.upto = 0;
        let count = input.take(&mut self.chunk)?;
        self.upto = count;
        if count == 0 {
            self.ended = true;
        }
        Ok(count)
    }

    // What is found where the source has ended.
    fn found_at_end(&self) -> Found
        ensures { result ≡ (if length self.now.line == 0 then Found.End else Found.Line) }
    {
        if self.line.is_empty() {
            Found::End
        } else {
            Found::Line
        }
    }

    /// Reads the next line. The source is not asked where a whole line is held, or where it has
    /// ended.
    pub fn read_line<S: Source>(&mut self, input: &mut S) -> Found
        ensures read { Read self.old (S.left input.old) (S.faults input.old)
            (S.calls input.old) result self.new (S.left input.new) (S.faults input.new)
            (S.calls input.new) }
        ensures ends { self.old.ended ≡ true → self.new.ended ≡ true }
        ensures stays { (has_line_end self.old.waiting ≡ true) ⊎ (self.old.ended ≡ true) → input.new
            ≡ input.old }
    {
        self.line.clear();
        while !self.move_waiting() {
            if self.line.len() > LONGEST {
                return Found::TooLong;
            }
            if self.ended {
                return self.found_at_end();
            }
            match self.take_chunk(input) {
                Ok(0) => return self.found_at_end(),
                Ok(_) => {}
                Err(_) => return Found::Failed,
            }
        }
        Found::Line
    }
}
