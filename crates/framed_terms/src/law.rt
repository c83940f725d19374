//! The law of framed terms. The function does nothing, and its contract states the law.

ghost use Rattle.framed_terms.specs.Laws.{FramedReactAsPlain, PlainReactAsFramed};

/// A term with calls and frames reacts as the plain term that has the called bodies in their places: each reaction
/// of the one is a reaction of the other, with the same writes over the variables of the whole, the same faults, and
/// an end where the other ends; and what is left of both is the same again.
pub fn framed_terms_react_as_plain_ones()
    ensures forth { FramedReactAsPlain }
    ensures back { PlainReactAsFramed }
{}
