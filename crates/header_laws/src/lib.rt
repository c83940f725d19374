//! Which inputs a header can name.
#![tactic(auto)]

mod law;

pub use law::parameters_can_be_named;
