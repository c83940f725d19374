//! Syntax trees of Quartz: names, places, types, expressions, and statements of both kinds.
#![tactic(auto)]

mod copy;
mod declare;
mod derived;
mod expr;
mod fault;
mod memory;
mod name;
mod place;
mod stmt;
mod surface;

pub use copy::{Copied, copied_items};
pub use declare::{Base, Decl, Flow, Init, Start, Storage, Ty, Var};
pub use derived::expand;
pub use expr::{Binary, Expr, Unary};
pub use fault::{Fault, Kind};
pub use memory::NoMemory;
pub use name::Name;
pub use place::Place;
pub use stmt::Stmt;
pub use surface::{Arg, Module, Surface, Target};
