//! Copies of a local variable, one for each time that its scope can be entered in a step, and the
//! store that its registers carry into the next step.
#![tactic(auto)]

mod carrying;
mod copy;
mod entering;
mod law;

pub use carrying::carry;
pub use copy::{ClosedRefs, Entered};
pub use entering::{cell_refs, enter_copy, reserve};
pub use law::carrying_keeps_one_store;
