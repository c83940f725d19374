//! A copy of a variable, and what it is closed with.

use aif_cells::{Action, Ref};
use quartz_tree::{Place, Storage};
use sqlite_items::Items;

/// A copy of a variable, and the actions that write to it.
///
/// `values` are its reserved value cells, one for each element. In a copy with store the registers
/// of the variable begin at `first`: for each element its value, for a memorized variable, and then
/// for a delayed one its flag and its pending value.
#[derive(Debug, Drop)]
pub struct VarCopy {
    pub var: u32,
    pub copy: u32,
    pub stored: bool,
    pub first: u32,
    pub values: Items<u32>,
    pub now: Items<Action>,
    pub next: Items<Action>,
}

/// What a copy is closed with: for each element its value, and its new flag and new pending value.
#[derive(Debug, Drop)]
pub struct Closed {
    pub values: Items<Ref>,
    pub flags: Items<Ref>,
    pub pending: Items<Ref>,
}

/// What closing asks of a variable.
#[derive(Clone, Copy, Debug)]
pub struct Shape {
    pub storage: Storage,
    pub delayed: bool,
    pub start: i64,
    pub place: Place,
}
