//! What holds of each macro step of a module: it is the only one of its state, and guards of
//! actions, the start flag, labels and flags of pending values are 0 or 1 in it.
#![tactic(auto)]

mod law;

pub use law::{
    macro_steps_are_one, registers_begin_as_bits, steps_keep_bits, trees_are_exact,
    typed_conditions_are_truth_values,
};
