//! What the rules of kinds, bounds and loops are for: a typed module can be compiled.
#![tactic(auto)]

mod law;

pub use law::typed_bodies_are_sound;
