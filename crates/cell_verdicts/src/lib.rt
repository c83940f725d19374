//! What is decided of cells: a cycle is named where there is one, and the loose pairs of writes are
//! the elements of a list.
#![tactic(auto)]

mod laws;

pub use laws::{cycles_are_named, loose_pairs_are_listed};
