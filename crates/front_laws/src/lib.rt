//! Laws of texts, tokens and trees, over the definitions of the crates below.
#![tactic(auto)]

mod laws;

pub use laws::{
    expansion_is_complete, names_are_words, texts_lex_or_break, tokens_derive_or_break,
};
