//! The law of framed runs. The function does nothing, and its contract states the law.

ghost use Rattle.framed_runs.specs.Laws.{FramedRunsArePlain, PlainRunsAreFramed};

/// A module among modules that it may call has the runs of the whole whose parameters are its own and whose body has
/// the called bodies in the places of the calls: the same inputs, outputs, end, fault and place.
pub fn framed_runs_are_plain_runs()
    ensures forth { FramedRunsArePlain }
    ensures back { PlainRunsAreFramed }
{}
