//! An element of an input.

use quartz_tree::Base;

/// An element of an input: its place among all elements of the inputs, and its scalar type.
#[derive(Clone, Copy, Debug, PartialEq, Eq)]
pub struct Field {
    pub place: usize,
    pub base: Base,
}
