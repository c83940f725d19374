//! The whole build of a module from its text: its cells, their order, and which writes may
//! conflict; or the first static rule that the text breaks.
#![tactic(auto)]

mod building;
mod fault;
mod judging;

pub use building::{Built, build};
pub use fault::{BuildFault, NOT_BUILT};
pub use judging::front;
