//! What `check` and `load` write.
#![tactic(auto)]

mod accepted;
mod law;
mod number;
mod summary;

pub use accepted::put_accepted;
pub use law::counted_runs_are_told;
pub use summary::put_summary;
