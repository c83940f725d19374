//! The outside of the compiler: bytes that come and go, texts by name, statuses and report lines.
#![tactic(auto)]

mod adapters;
mod gate;
mod memory_shelf;
mod memory_sink;
mod memory_source;
mod shelf;
mod sink;
mod source;
mod status;

pub use adapters::{DirShelf, StdSink, StdSource};
pub use gate::{Gate, NoGate, Op};
pub use memory_shelf::MemShelf;
pub use memory_sink::MemSink;
pub use memory_source::{MemSource, SureSource};
pub use shelf::Shelf;
pub use sink::{Sink, SureSink, put_whole};
pub use source::{Failed, Source};
pub use status::{Status, put_report};
