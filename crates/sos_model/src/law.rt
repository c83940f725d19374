//! That the walk and the relation of the semantics are one. The function does nothing, and its
//! contract states the law.

ghost use Rattle.sos_model.specs.Laws.{WalksAreReactions};

/// A walk finds exactly the reactions of the semantics whose scopes have the first of the given
/// values.
pub fn walks_are_reactions()
    ensures { WalksAreReactions }
{}
