//! Runs of cells over traces, one macro step after another.
#![tactic(auto)]

mod law;
mod room;
mod running;

pub use law::compiled_cells_execute;
pub use running::run_cells;
