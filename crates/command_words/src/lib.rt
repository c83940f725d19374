//! The words of a command line, read by `clap` from one table of options.
#![tactic(auto)]

mod arguments;
mod command;
mod verb;
mod words;

pub use command::{Command, WordsFault};
pub use words::{read_stay, read_words};
