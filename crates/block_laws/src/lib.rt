//! What is declared where in a module.
#![tactic(auto)]

mod law;

pub use law::modules_declare_in_place;
