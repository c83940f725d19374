//! Expressions as trees of cells, and the tests of their faults.
#![tactic(auto)]

mod fault_test;
mod guard;
mod testing;
mod trees;
mod writing;

pub use fault_test::Test;
pub use testing::{count_elements, push_tests};
pub use trees::tree_of;
pub use writing::{fitted_tree, push_element_tests, push_range_tests, push_target_tests};
