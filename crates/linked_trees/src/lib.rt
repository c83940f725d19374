//! Modules whose calls are replaced by what they call, as definitions, and that they have the same runs.
#![tactic(auto)]

mod law;

pub use law::{
    linked_modules_have_no_calls, linked_modules_have_the_same_runs,
    modules_without_calls_are_linked_to_themselves,
};
