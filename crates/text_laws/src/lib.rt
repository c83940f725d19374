//! What holds of every text: one verdict, one text of its cells, one story over a trace, and
//! no conflict where no pair of writes is loose.
#![tactic(auto)]

mod law;

pub use law::{
    conflicts_are_of_loose_pairs, stories_are_one, stories_exist, texts_have_a_verdict,
    texts_have_one_verdict, well_typed_modules_are_sound,
};
