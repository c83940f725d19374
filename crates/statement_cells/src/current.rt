//! The copy of a variable that a statement reads and writes.

use aif_cells::Ref;
use sqlite_items::Items;

/// The copy of a variable that a statement reads and writes: its number among the copies of the
/// variable, and the references of its elements.
#[derive(Debug, Drop)]
pub struct Current {
    pub copy: u32,
    pub values: Items<Ref>,
}
