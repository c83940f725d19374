//! The laws of loose pairs. The functions do nothing, and their contracts state the laws.

ghost use Rattle.loose_runs.specs.Laws.{LooseMeetsConflict, RunsEndFlagged, UnflaggedHasNoConflict};
ghost use Rattle.loose_runs.specs.Meeting.{ClashingNeverMeet};

/// Two actions that clash never both write one element: in no solution of a module's cells do both
/// guards hold while the indexes are alike, wherever the registers stand for a state.
pub fn clashing_actions_never_meet()
    ensures never { ClashingNeverMeet }
{}

/// Where a step to which a run comes has a conflict, a variable with a loose pair of writes is
/// declared at its place. So no step of any run has a conflict at a place where no such variable is
/// declared, and a run that ends with a conflict ends at a place where one is. Several variables
/// may be declared at one place.
pub fn unflagged_places_have_no_conflict()
    ensures loose { LooseMeetsConflict }
    ensures place { UnflaggedHasNoConflict }
    ensures runs { RunsEndFlagged }
{}
