//! Names become numbers: scopes, variables, and the rule that each name is declared once.
#![tactic(auto)]

mod call;
mod constant;
mod expression;
mod fault;
mod kernel;
mod law;
mod names;
mod place;
mod resolving;
mod scope;
mod target;
mod walk;

pub use call::has_call;
pub use constant::{has_kind_of, is_within, start_value};
pub use fault::NamesFault;
pub use law::{marks_are_targets, resolved_is_numbered};
pub use place::{lesser_place, place_if};
pub use resolving::{Resolved, resolve};
pub use scope::unscoped;
