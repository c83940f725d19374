//! The terms of typed modules: the term of a module's body, that it can react, and whether an
//! environment fits its variables.
#![tactic(auto)]

mod fitting;
mod starting;

pub use fitting::fits;
pub use starting::{start, typed_bodies_react};
