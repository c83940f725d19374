//! The cells of statements: definitions of the surface and the depth of a statement, which the
//! compiler is to make, and that what they say is a reaction of the semantics.
#![tactic(auto)]

mod current;
mod law;

pub use current::Current;
pub use law::{cells_name_earlier_cells, open_walk, solutions_are_macro_steps};
