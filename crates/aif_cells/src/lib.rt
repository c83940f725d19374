//! Guarded actions as cells: references, trees, cells, registers, actions, monitors, their text
//! and their weight.
#![tactic(auto)]

mod aif;
mod cells;
mod laws;
mod making;
mod piece;
mod reference;
mod text;
mod tree;
mod tree_text;
mod valuation;
mod weight;

pub use aif::{Aif, Order, count_elements};
pub use cells::{Action, Cell, Made, Monitor, Path, Register};
pub use laws::extension_keeps_equations;
pub use making::{add_cell, any_of, join, reference_in};
pub use reference::Ref;
pub use text::write_text;
pub use tree::{Tree, TreeOne, TreeTwo};
pub use valuation::{value_of, worth_of};
pub use weight::weight_of;
