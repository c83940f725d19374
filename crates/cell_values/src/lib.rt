//! The values of cells: what a macro step computes, one cell after another.
#![tactic(auto)]

mod evaluating;

pub use evaluating::{evaluate, least_raised, next_registers};
