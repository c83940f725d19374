//! What is built from statements.

use aif_cells::{Action, Aif, Ref};
use reincarnation::{ClosedRefs, Entered};
use sqlite_items::Items;
use statement_cells::Current;

/// A label, and the reference under which it is entered or stays.
#[derive(Clone, Copy, Debug, PartialEq, Eq)]
pub struct Entry {
    pub label: u32,
    pub under: Ref,
}

/// What is known of a variable: how many copies it has, and the actions that write to the copy that
/// isn't closed, now and for the next macro step.
#[derive(Debug, Drop)]
pub struct OpenVar {
    pub copies: u32,
    pub now: Items<Action>,
    pub next: Items<Action>,
}

/// A copy without store of a scope whose registers begin at `first`. It is still active behind the
/// macro step where its reference isn't 0.
#[derive(Debug, Drop)]
pub struct EnteredCopy {
    pub var: u32,
    pub first: u32,
    pub entered: Entered,
}

/// The copy with store of a scope, with so many labels from `label` on, whose registers begin at
/// `first`.
#[derive(Debug, Drop)]
pub struct DepthCopy {
    pub var: u32,
    pub label: u32,
    pub labels: u32,
    pub first: u32,
    pub closed: ClosedRefs,
}

/// What is built from statements. Each new thing comes behind those that are there.
///
/// `copies` and `variables` have an entry for each variable of the `Aif`, by number: its current
/// copy, and what is known of it. `entered` and `depths` are the copies of scopes with registers,
/// in the order in which they were closed.
#[derive(Debug, Drop)]
pub struct Builder {
    pub aif: Aif,
    pub copies: Vec<Current>,
    pub entries: Items<Entry>,
    pub stays: Items<Entry>,
    pub variables: Vec<OpenVar>,
    pub entered: Items<EnteredCopy>,
    pub depths: Items<DepthCopy>,
}
