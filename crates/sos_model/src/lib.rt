//! Terms of the semantics, as code: a term starts, advances and reacts.
#![tactic(auto)]

mod answering;
mod copying;
mod entering;
mod fault;
mod faulting;
mod form;
mod found;
mod law;
mod passed;
mod react;
mod reacting;
mod resolving;
mod starting;
mod term;
mod ticking;
mod walking;
mod writing;

pub use fault::ReactFault;
pub use form::Form;
pub use law::walks_are_reactions;
pub use quartz_expr::{Act, Kept};
pub use react::{Reaction, react_with};
pub use term::{Term, tick};
