//! Gates, which hold the stages of a pipeline in tests.

/// The events of a pipeline stage.
#[derive(Clone, Copy, Debug, PartialEq, Eq)]
pub enum Op {
    PopLink,
    PopFeed,
    PushFeed,
    PushLink,
}

/// A hold on the stages of a pipeline, for tests. It is called before each try of a push or pop of
/// a stage, with the macro step whose values are meant, and answers nothing.
pub trait Gate {
    fn passing(&self, stage: u32, step: u32, op: Op);
}

/// The gate that holds nobody.
#[derive(Clone, Copy, Debug, PartialEq, Eq)]
pub struct NoGate;

impl Gate for NoGate {
    fn passing(&self, _stage: u32, _step: u32, _op: Op) {}
}
