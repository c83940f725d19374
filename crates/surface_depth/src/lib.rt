//! The cells of a whole module.
#![tactic(auto)]

mod assembling;
mod beginning;
mod carrying;
mod compiling;
mod counting;
mod ending;
mod fault;
mod finishing;
mod labelled;
mod labelling;
mod lists;
mod paths;
mod registers;
mod sizes;

pub use compiling::compile;
pub use fault::CompileFault;
