//! What a typed module is to its cells. The function does nothing, and its contract states the law.

ghost use Rattle.typed_terms.specs.Laws.{TypedBodiesAreSound};

/// A typed module can be compiled: its types are sound, its start values lie in their ranges, its
/// expressions are typed, the variables that it names exist and say whether they are delayed, and
/// no loop has a body that may be instant.
pub fn typed_bodies_are_sound()
    ensures { TypedBodiesAreSound }
{}
