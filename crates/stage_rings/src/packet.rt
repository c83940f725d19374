//! Packets, and what they are about.

use quartz_tree::Fault;

/// Why no more macro steps come.
#[derive(Clone, Copy, Debug, PartialEq, Eq)]
pub enum Cause {
    /// The trace was read to its end.
    Done,
    /// The next element of the trace isn't readable.
    Bad,
    /// A read of the trace failed.
    ReadFault,
    /// The trace goes on behind the greatest number of steps.
    Limit,
}

/// What a packet is about.
#[derive(Clone, Copy, Debug, PartialEq, Eq)]
pub enum Body {
    /// A macro step, with the least fault that was found so far.
    Step { fault: Option<Fault> },
    /// The end of all steps.
    End(Cause),
}

/// What goes from one actor to the next: the number of a macro step, or of the one that would have
/// come, and the values that the next actors need.
#[derive(Debug, Drop)]
pub struct Packet {
    pub step: u32,
    pub body: Body,
    pub values: Vec<i64>,
}

/// A value that a stage computes in a macro step and an earlier stage needs in the next.
#[derive(Clone, Copy, Debug, PartialEq, Eq)]
pub struct Back {
    pub step: u32,
    pub reg: u32,
    pub value: i64,
}
