//! A test for a fault.

use aif_cells::Tree;
use quartz_tree::{Kind, Place};

/// A test: a macro step has a fault of that kind at that place where the tree isn't 0.
#[derive(Debug, Drop)]
pub struct Test {
    pub tree: Tree,
    pub kind: Kind,
    pub place: Place,
}
