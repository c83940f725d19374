//! Builds the cells of statements: the surface starts a statement, and the depth goes on from its
//! labels.
#![tactic(auto)]

mod builder;
mod chaining;
mod counting;
mod gates;
mod guarding;
mod joining;
mod noting;
mod resuming;
mod scoping;
mod starting;
mod testing;

pub use builder::{Builder, DepthCopy, EnteredCopy, Entry, OpenVar};
pub use counting::{Counts, Numbers, count};
