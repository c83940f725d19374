//! Traces of inputs written anew, in either format.
#![tactic(auto)]

mod format;
mod header;
mod word;
mod writer;

pub use format::Format;
pub use writer::InputWriter;
