//! Modules that call one another are linked to one, whose runs are theirs.
#![tactic(auto)]

mod law;

pub use law::linked_modules_mean_the_same;
