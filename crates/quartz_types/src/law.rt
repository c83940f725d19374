//! What the rule of loops is for. The function does nothing, and its contract states the law.

ghost use Rattle.quartz_types.specs.Laws.{NotInstantTakesAStep};

/// A statement that may not be instant doesn't end in the macro step in which it starts.
#[tactic(auto, using(quartz_expr::proofs::LawLemmas::stays_on))]
pub fn typed_loops_take_a_step()
    ensures { NotInstantTakesAStep }
{}
