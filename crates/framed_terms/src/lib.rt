//! Terms of modules that call one another, and what they mean: a call reacts as the called module's body in a frame.
#![tactic(auto)]

mod law;

pub use law::framed_terms_react_as_plain_ones;
