//! How a command ended: its number and its report line.

ghost use Rattle.std.specs.Prelude.{◌≡◌, ◌++◌, decimal, codes};
ghost use Rattle.outside.specs.Puts.{Puts};
ghost use Rattle.outside.specs.Report.{number_of, line_end, place_text, kind_text as kind_codes, report_line};

use crate::sink::{Sink, put_whole};
use crate::source::Failed;
use itoa::Buffer;
use quartz_tree::{Kind, Place};

/// How a command ended.
#[derive(Clone, Copy, Debug, PartialEq, Eq)]
pub enum Status {
    /// The command was done.
    Ok,
    /// The words are no command.
    Usage,
    /// There is no such module text, or it could not be read.
    ModuleUnavailable,
    /// The module breaks a static rule, S1 to S14, or 0 where what is asked isn't built yet.
    Refused { rule: u8, place: Place },
    /// The trace's element of this number isn't readable.
    BadInput { step: u32 },
    /// This macro step has a fault.
    RunFault { step: u32, kind: Kind, place: Place },
    /// A read of the trace failed.
    ReadFault,
    /// A write of the output failed.
    WriteFault,
    /// The trace goes on behind the greatest number of steps.
    StepLimit,
    /// Memory was refused, or numbers outgrew the room that they have.
    NoMemory,
    /// The witness is none, at this step.
    BadWitness { step: u32 },
}

impl Status {
    /// The exit status of a program that ended so.
    pub fn number(&self) -> u8
        ensures { result ≡ number_of self.now }
    {
        match self {
            Status::Ok => 0,
            Status::Usage => 1,
            Status::ModuleUnavailable => 2,
            Status::Refused { .. } => 3,
            Status::BadInput { .. } => 4,
            Status::RunFault { .. } => 5,
            Status::ReadFault => 6,
            Status::WriteFault => 7,
            Status::StepLimit => 8,
            Status::NoMemory => 9,
            Status::BadWitness { .. } => 10,
        }
    }
}

fn put_number<E: Sink>(report: &mut E, number: u32) -> Result<(), Failed>
    ensures { Puts E.stands E.faults result report.old report.new (decimal number) }
{
    let mut digits = Buffer::new();
    put_whole(report, digits.format(number).as_bytes())
}

// What a report says of a place: its line, a colon and its column, and the line's end.
fn put_place<E: Sink>(report: &mut E, place: Place) -> Result<(), Failed>
    ensures { Puts E.stands E.faults result report.old report.new (place_text place) }
{
    put_number(report, place.line)?;
    put_whole(report, b":")?;
    put_number(report, place.col)?;
    put_whole(report, b"\n")
}

fn kind_text(kind: Kind) -> &'static [u8]
    ensures { result.now ≡ kind_codes kind }
{
    match kind {
        Kind::Range => b"range",
        Kind::Index => b"index",
        Kind::Divisor => b"divisor",
        Kind::Conflict => b"conflict",
    }
}

// A text, a step and the line's end.
fn put_step<E: Sink>(report: &mut E, text: &[u8], step: u32) -> Result<(), Failed>
    ensures { Puts E.stands E.faults result report.old report.new
        (text.now ++ (decimal step ++ line_end)) }
{
    put_whole(report, text)?;
    put_number(report, step)?;
    put_whole(report, b"\n")
}

// A text, a number, another text and a place.
fn put_number_at<E: Sink>(
    report: &mut E,
    text: &[u8],
    number: u32,
    between: &[u8],
    place: Place,
) -> Result<(), Failed>
    ensures { Puts E.stands E.faults result report.old report.new
        (text.now ++ (decimal number ++ (between.now ++ place_text place))) }
{
    put_whole(report, text)?;
    put_number(report, number)?;
    put_whole(report, between)?;
    put_place(report, place)
}

// A text, the name of a kind of fault, its step and its place.
fn put_fault<E: Sink>(
    report: &mut E,
    text: &[u8],
    kind: Kind,
    step: u32,
    place: Place,
) -> Result<(), Failed>
    ensures { Puts E.stands E.faults result report.old report.new
        (text.now ++ (kind_codes kind
        ++ (codes " at step " ++ (decimal step ++ (codes ", " ++ place_text place))))) }
{
    put_whole(report, text)?;
    put_whole(report, kind_text(kind))?;
    put_number_at(report, b" at step ", step, b", ", place)
}

/// Puts the report line of a status, which is empty for `Ok`.
pub fn put_report<E: Sink>(status: &Status, report: &mut E) -> Result<(), Failed>
    ensures { Puts E.stands E.faults result report.old report.new (report_line status.now) }
{
    match *status {
        Status::Ok => put_whole(report, b""),
        Status::Usage => put_whole(report, b"averest: usage\n"),
        Status::ModuleUnavailable => put_whole(report, b"averest: module unavailable\n"),
        Status::Refused { rule, place } => {
            put_number_at(
                report,
                b"averest: refused S",
                u32::from(rule),
                b" at ",
                place,
            )
        }
        Status::BadInput { step } => put_step(report, b"averest: bad input at step ", step),
        Status::RunFault { step, kind, place } => {
            put_fault(report, b"averest: ", kind, step, place)
        }
        Status::ReadFault => put_whole(report, b"averest: read fault\n"),
        Status::WriteFault => put_whole(report, b"averest: write fault\n"),
        Status::StepLimit => put_whole(report, b"averest: step limit\n"),
        Status::NoMemory => put_whole(report, b"averest: no memory\n"),
        Status::BadWitness { step } => put_step(report, b"averest: bad witness at step ", step),
    }
}
