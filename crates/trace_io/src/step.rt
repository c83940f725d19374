//! What comes of reading a step.

/// What came of reading a step of a trace.
#[derive(Clone, Copy, Debug, PartialEq, Eq)]
pub enum ReadStep {
    /// The inputs' values of the next step.
    Step,
    /// No byte was left.
    End,
    /// The next step isn't readable.
    Bad,
    /// A read failed.
    ReadFault,
}
