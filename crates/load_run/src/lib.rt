//! Runs of cells over generated traces, and their summaries.
#![tactic(auto)]

mod loading;

pub use loading::load_cells;
