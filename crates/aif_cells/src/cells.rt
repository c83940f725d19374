//! Cells, registers, guarded actions and monitors.

use crate::reference::Ref;
use crate::tree::Tree;
use quartz_tree::{Kind, Place};
use sqlite_items::Items;

/// A number that a macro step computes.
#[derive(Debug, Drop)]
pub struct Cell {
    pub tree: Tree,
    /// That of the variable for whose copy or register it was made, else 1:1.
    pub place: Place,
}

/// A number that is kept from one macro step to the next.
#[derive(Clone, Copy, Debug, PartialEq, Eq)]
pub struct Register {
    /// What it holds in the first step.
    pub initial: i64,
    /// What it holds in the next step.
    pub next: Ref,
}

/// A guarded action: a write to a variable's copy that acts where its guard isn't 0.
#[derive(Clone, Copy, Debug, PartialEq, Eq)]
pub struct Action {
    pub guard: Ref,
    pub var: u32,
    pub copy: u32,
    /// The element of an array that is written.
    pub index: Option<Ref>,
    pub value: Ref,
    /// Whether it writes in the next macro step.
    pub delayed: bool,
    /// That of the write.
    pub place: Place,
}

/// A fault that a macro step has where the cell isn't 0.
#[derive(Clone, Copy, Debug, PartialEq, Eq)]
pub struct Monitor {
    pub cell: u32,
    pub place: Place,
    pub kind: Kind,
}

/// The way from a module's body to a label. Each step says whether the statement is a parallel, and
/// which of its parts the label is in.
#[derive(Debug, Drop)]
pub struct Path {
    pub steps: Items<(bool, u32)>,
}

/// A copy of a variable. One with store goes on from the variable's registers, and one without
/// starts afresh.
#[derive(Clone, Copy, Debug, PartialEq, Eq)]
pub struct Made {
    pub var: u32,
    pub stored: bool,
}
