//! The meaning of programs: values, faults, and how a term reacts.
#![tactic(auto)]

mod act;
mod env;
mod evaluate;
mod fault;
mod kind;
mod laws;
mod range;

pub use act::{Act, Kept};
pub use env::Env;
pub use evaluate::{bad, eval};
pub use fault::lesser_of;
pub use kind::{
    ExprKind, counted_width, kind_of, kind_of_bits, kind_of_choice, kind_of_element, kind_of_name,
    kind_of_number, kind_of_one, kind_of_slice, kind_of_two,
};
pub use laws::{
    coherence_is_soundness, conflicts_are_differences, delayed_abort_starts_as_its_body,
    not_instant_stays, reaction_is_one, runs_look_back, sequence_acts_in_order,
    statements_are_fresh, strong_preemption_does_nothing, tick_of_fresh_term,
};
pub use range::{Span, base_range, is_sound_base, is_sound_length, range_in, type_range};
