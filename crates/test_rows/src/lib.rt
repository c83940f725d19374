//! Tables of tests as texts: rows with an empty line between them, lines of the form `name: value`,
//! and values of any bytes.
#![tactic(auto)]

mod values;

pub use values::{bytes_of, pair_of, spread, text_of, value_of, values_of};
