//! The whole program as one call, over any shelf, source and sinks.
#![tactic(auto)]

mod command;
mod doing;
mod fetching;
mod task;

pub use command::averest;
