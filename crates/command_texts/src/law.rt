//! What a counting sink tells of a run over a generated trace. The function does nothing, and its
//! contract states the law.

ghost use Rattle.command_texts.specs.Counted.{CountedRunIsTold};

/// A run over a generated trace that is done wrote a line for each step. A counting sink that
/// stands for these lines tells how many bytes they have, and the last of them.
pub fn counted_runs_are_told()
    ensures { CountedRunIsTold }
{}
