//! The cells that close a copy of a variable: what its elements are, resolved from guarded actions.
#![tactic(auto)]

mod arms;
mod closing;
mod copy;
mod law;

pub use closing::close;
pub use copy::{Closed, Shape, VarCopy};
pub use law::{closing_is_resolving, closing_names_earlier_cells};
