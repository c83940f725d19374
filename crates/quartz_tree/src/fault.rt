//! The faults that a macro step can have.

use crate::place::Place;

/// The kinds of fault that a macro step can have, in their order at one place.
#[derive(Clone, Copy, Debug, PartialEq, Eq, PartialOrd, Ord)]
pub enum Kind {
    /// A written value is outside its target's range.
    Range,
    /// An index names no element.
    Index,
    /// A divisor is 0.
    Divisor,
    /// Two writes of one element, or a write and a pending value, differ.
    Conflict,
}

/// A fault of a macro step. Faults are ordered by place, then by kind.
#[derive(Clone, Copy, Debug, PartialEq, Eq, PartialOrd, Ord)]
pub struct Fault {
    pub place: Place,
    pub kind: Kind,
}
