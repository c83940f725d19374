//! The order in which cells are computed, or the cycle that stands in its way.
#![tactic(auto)]

mod components;
mod cycle;
mod distance;
mod fault;
mod gather;
mod graph;
mod named;
mod ordered;
mod turns;

pub use fault::OrderFault;
pub use named::are_named;
pub use ordered::order;
