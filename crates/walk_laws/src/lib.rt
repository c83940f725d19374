//! Laws of the walk of a term with a list of values for its scopes.
#![tactic(auto)]

mod law;

pub use law::short_lists_are_cured;
