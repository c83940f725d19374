//! Loose pairs: two writes to one variable of which the cells alone don't say that they never meet.
#![tactic(auto)]

mod block;
mod claims;
mod clash;
mod pairs;
mod reach;
mod table;

pub use pairs::{Pairs, loose_pairs};
