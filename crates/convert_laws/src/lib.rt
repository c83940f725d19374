//! Laws of converted traces.
#![tactic(auto)]

mod law;

pub use law::{new_traces_run_the_same, new_traces_say_the_same};
