//! The rules of module calls, S11 to S14, as definitions, and how large a linked body is.
#![tactic(auto)]

mod law;

pub use law::linked_sizes_are_counted;
