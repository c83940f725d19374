//! What holds of each module whose names are numbers. The functions do nothing, and their contracts
//! state the laws.

ghost use Rattle.quartz_names.specs.Laws.{MarksAreTargets, ResolvedIsNumbered};

/// A resolved module names variables of its own alone, its start values lie in the ranges of their
/// types, and the targets of its delayed writes say that they are.
#[tactic(auto, using(crate::proofs::NumberedLemmas::resolved_is_numbered))]
pub fn resolved_is_numbered()
    ensures { ResolvedIsNumbered }
{}

/// In a resolved module a variable says that it is the target of a delayed write exactly where it
/// is one.
#[tactic(auto, using(crate::proofs::NumberedLemmas::marks_are_targets))]
pub fn marks_are_targets()
    ensures { MarksAreTargets }
{}
