//! What converted traces say to the modules that are accepted.
#![tactic(auto)]

mod law;

pub use law::converted_texts_say_the_same;
