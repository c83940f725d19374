//! Runs of modules that call one another are runs of the whole in which called bodies stand in the places of calls.
#![tactic(auto)]

mod law;

pub use law::framed_runs_are_plain_runs;
