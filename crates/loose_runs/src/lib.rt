//! Runs and loose pairs: no step of any run has a conflict at a place where only variables without
//! loose pairs of writes are declared.
#![tactic(auto)]

mod law;

pub use law::{clashing_actions_never_meet, unflagged_places_have_no_conflict};
