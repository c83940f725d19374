//! A sink that counts.

ghost use Rattle.std.specs.Prelude.{◌≡◌, ◌≤◌, ◌<◌, ◌⊎◌, ◌+◌, ◌-◌, ◌^◌, [], true, min, length, IfOk, vec_capacity};
ghost use Rattle.trace_io.specs.Lines.{is_ended};
ghost use Rattle.trace_io.specs.Counting.{longest_line, line_with, last_line, grows_long, StandsFor};

use outside::{Failed, Sink};
use quartz_tree::NoMemory;
use std::alloc::Global;
use std::marker::Model;

// The longest line that 65,536 elements make.
const LONGEST_LINE: usize = 2293760;

// Whether an LF is the last byte.
fn is_closed(line: &[u8]) -> bool
    ensures { result ≡ is_ended line.now }
{
    match line {
        [] => false,
        [.., last] => *last == b'\n',
    }
}

// Adds a byte to the last line, or begins a new one with it.
fn add_byte(line: &mut Vec<u8>, byte: u8)
    requires { (length line.old.items ≤ longest_line) × (longest_line ≤ vec_capacity line.old) }
    ensures added { (line.new.items ≡ line_with line.old.items byte)
        ⊎ (longest_line < length (line_with line.old.items byte)) }
    ensures within { length line.new.items ≤ longest_line }
    ensures room { vec_capacity line.old ≤ vec_capacity line.new }
{
    if is_closed(line) {
        line.clear();
    }
    if line.len() < LONGEST_LINE {
        line.push_reserved(byte);
    }
}

// Adds bytes to the last line.
fn add_bytes(line: &mut Vec<u8>, bytes: &[u8])
    requires { (length line.old.items ≤ longest_line) × (longest_line ≤ vec_capacity line.old) }
    ensures added { (line.new.items ≡ last_line line.old.items bytes.now)
        ⊎ (grows_long line.old.items bytes.now ≡ true) }
    ensures within { length line.new.items ≤ longest_line }
    ensures room { vec_capacity line.old ≤ vec_capacity line.new }
{
    for byte in bytes {
        add_byte(line, *byte);
    }
}

/// A sink that counts bytes and keeps the last line, and never fails. It stands for each list with
/// its number of bytes and its last line, and for each that has a line of more than 2,293,760
/// bytes, or more than 18,446,744,073,709,551,615 bytes.
#[derive(Debug, Drop)]
pub struct CountSink {
    count: u64,
    line: Vec<u8>,
}

impl Model for CountSink {
    ghost use Rattle.std.specs.Prelude.{◌≤◌, length, vec_capacity};
    ghost use Rattle.trace_io.specs.Counting.{Tally, longest_line};

    ghost Value = { Tally };

    ghost view = { λ s. record { count = s.count; last = s.line.items } };

    ghost invariant = { λ s. (length s.line.items ≤ longest_line)
        × (longest_line ≤ vec_capacity s.line) };
}

impl CountSink {
    /// A sink without bytes. All its memory is taken here.
    pub fn new(alloc: Global) -> Result<CountSink, NoMemory>
        ensures { IfOk result (λ s. s ≡ record { count = 0; last = [] }) }
    {
        Ok(CountSink {
            count: 0,
            line: Vec::with_capacity(alloc, LONGEST_LINE)?,
        })
    }

    /// How many bytes were put.
    pub fn bytes(&self) -> u64
        ensures { result ≡ self.now.count }
    {
        self.count
    }

    /// The last line, with its LF if it has one.
    pub fn last(&self) -> &[u8]
        ensures { result.now ≡ self.now.last }
    {
        &self.line
    }

    // Counts the bytes of a piece and keeps its last line.
    fn add(&mut self, piece: &[u8])
        ensures count { self.new.count ≡ min (self.old.count + length piece.now) (2 ^ 64 - 1) }
        ensures last { (self.new.last ≡ last_line self.old.last piece.now)
            ⊎ (grows_long self.old.last piece.now ≡ true) }
    {
        self.count = self.count.saturating_add(piece.len() as u64);
        add_bytes(&mut self.line, piece);
    }
}

impl Sink for CountSink {
    ghost stands = { λ s bs. StandsFor s bs };

    ghost faults = { λ _. 0 };

    fn put(&mut self, piece: &[u8]) -> Result<usize, Failed> {
        self.add(piece);
        Ok(piece.len())
    }
}
