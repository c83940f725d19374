//! What a copy was closed with, and under what it was entered.

use aif_cells::Ref;
use sqlite_items::Items;

/// What a copy was closed with: for each element its value, and its new flag and new pending value.
#[derive(Debug, Drop)]
pub struct ClosedRefs {
    pub values: Items<Ref>,
    pub flags: Items<Ref>,
    pub pending: Items<Ref>,
}

/// A copy that may have been entered in this step, and is still active behind it where `enter`
/// isn't 0.
#[derive(Debug, Drop)]
pub struct Entered {
    pub enter: Ref,
    pub closed: ClosedRefs,
}

/// What a register of an element keeps.
#[derive(Clone, Copy, Debug, PartialEq, Eq)]
pub(crate) enum Part {
    Value,
    Flag,
    Pending,
}
