//! The syntax tree of a Quartz text, read in one pass over its tokens.
#![tactic(auto)]

mod built;
mod declaring;
mod decode;
mod expression;
mod fault;
mod heading;
mod item;
mod law;
mod marks;
mod parsing;
mod rated;
mod reader;
mod statement;
mod symbol;
mod typed;

pub use declaring::Typing;
pub use fault::ParseFault;
pub use law::{Law, law_of_reading};
pub use parsing::{parse, parse_text};
pub use symbol::{Mark, Scalar, Symbol, classify};
