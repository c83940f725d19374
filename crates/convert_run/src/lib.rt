//! Traces of inputs read, and written anew in either format.
#![tactic(auto)]

mod room;
mod running;

pub use running::convert_trace;
