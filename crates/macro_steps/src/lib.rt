//! The macro steps of a module: the solutions of its cells are those of the semantics.
#![tactic(auto)]

mod law;

pub use law::{
    ordered_cells_are_acyclic, runs_are_computed, solutions_are_steps, steps_are_solutions,
};
