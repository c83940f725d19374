//! Laws of the semantics. Each function does nothing, and its contract states the law.

ghost use Rattle.quartz_expr.specs.Laws.{CoherenceIsSoundness, ConflictsAreDifferences, DelayedAbortStartsAsItsBody, NotInstantStays, ReactionIsOne, RunsLookBack, SequenceActsInOrder, StatementsAreFresh, StrongAbortDoesNothing, StrongSuspensionDoesNothing, TickOfFreshTerm};

/// A term, an environment and a list of values for its scopes have at most one reaction, and it
/// uses a front of the list.
#[tactic(auto, using(crate::proofs::LawLemmas::reaction_one))]
pub fn reaction_is_one()
    ensures { ReactionIsOne }
{}

/// A term that may not be instant doesn't end in the step in which it starts.
#[tactic(auto, using(crate::proofs::LawLemmas::stays_on))]
pub fn not_instant_stays()
    ensures { NotInstantStays }
{}

/// The acts of a sequence are its parts' acts in order, up to the first part that doesn't end.
#[tactic(auto, using(crate::proofs::LawLemmas::sequence_back))]
pub fn sequence_acts_in_order()
    ensures { SequenceActsInOrder }
{}

/// A term without stores doesn't change while it does nothing.
#[tactic(auto, using(crate::proofs::LawLemmas::tick_fresh))]
pub fn tick_of_fresh_term()
    ensures { TickOfFreshTerm }
{}

/// The term of a kernel statement has no stores.
#[tactic(auto, using(crate::proofs::LawLemmas::statement_fresh))]
pub fn statements_are_fresh()
    ensures { StatementsAreFresh }
{}

/// A delayed abort does in its first step what its body does.
#[tactic(auto, using(crate::proofs::LawLemmas::delayed_abort_back))]
pub fn delayed_abort_starts_as_its_body()
    ensures { DelayedAbortStartsAsItsBody }
{}

/// A strong preemption whose condition holds does nothing of its body: an abort ends, and a
/// suspension stays.
#[tactic(auto, using(crate::proofs::LawLemmas::strong_abort_back, crate::proofs::LawLemmas::strong_suspend_back))]
pub fn strong_preemption_does_nothing()
    ensures abort { StrongAbortDoesNothing }
    ensures suspension { StrongSuspensionDoesNothing }
{}

/// What a run does up to a step depends on the inputs up to that step alone.
#[tactic(auto, using(crate::proofs::LawLemmas::runs_cut))]
pub fn runs_look_back()
    ensures { RunsLookBack }
{}

/// A now-value differs from the element's value exactly where two of its now-values and its pending
/// value differ.
#[tactic(auto, using(crate::proofs::LawLemmas::conflict_is))]
pub fn conflicts_are_differences()
    ensures { ConflictsAreDifferences }
{}

/// An environment is coherent exactly where it gives a macro step without a fault.
pub fn coherence_is_soundness()
    ensures { CoherenceIsSoundness }
{}
