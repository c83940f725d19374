//! The tokens of a Quartz text, by the longest match from the left.
#![tactic(auto)]

mod fault;
mod piece;
mod scan;
mod token;

pub use fault::LexFault;
pub use scan::lex;
pub use token::{Token, TokenKind, Tokens};
