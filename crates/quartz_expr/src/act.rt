//! Writes that act on one element, and what an element keeps between macro steps.

/// What a variable keeps of one element from one macro step to the next.
#[derive(Clone, Copy, Debug, PartialEq, Eq)]
pub struct Kept {
    pub value: i64,
    /// What a delayed write gives the element in the next macro step.
    pub pending: Option<i64>,
}

/// A write that acts on one element of a variable.
#[derive(Clone, Copy, Debug, PartialEq, Eq)]
pub struct Act {
    pub var: u32,
    pub element: u32,
    pub value: i64,
    /// Whether it writes in the next macro step.
    pub delayed: bool,
}
