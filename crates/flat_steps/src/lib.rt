//! Flat steps over slots: each writes one slot with what it makes of the numbers in others.
#![tactic(auto)]

mod operators;
mod running;
mod step;

pub use running::{run_steps, value_of};
pub use step::{Operation, Step};
