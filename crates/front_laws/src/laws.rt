//! Laws of texts, tokens and trees. Each function does nothing, and its contract states the law.

ghost use Rattle.front_laws.specs.Laws.{ExpansionLeavesNone, ExpansionSparesOthers, NamesAreWords, TextsLexOrBreak, TextsHaveOneOutcome, TokensDeriveOrBreak, TokensHaveOneOutcome, WordsHoldNoDot};

/// A statement whose derived forms are replaced has none, and one without any stays as it is.
#[tactic(auto, using(crate::proofs::DerivedLemmas::expansion_leaves_none, crate::proofs::DerivedLemmas::expansion_spares_others))]
pub fn expansion_is_complete()
    ensures none { ExpansionLeavesNone }
    ensures others { ExpansionSparesOthers }
{}

/// Every name in the modules that a text derives is a word, so it holds letters, digits and
/// underscores alone, and no dot.
pub fn names_are_words()
    ensures words { NamesAreWords }
    ensures no_dot { WordsHoldNoDot }
{}

/// Every list of bytes has tokens or a place at which S1 is broken, only one of them, and never
/// both.
pub fn texts_lex_or_break()
    ensures some { TextsLexOrBreak }
    ensures one { TextsHaveOneOutcome }
{}

/// Every list of tokens derives modules or breaks S2 at a place, only one of them, and never both.
pub fn tokens_derive_or_break()
    ensures some { TokensDeriveOrBreak }
    ensures one { TokensHaveOneOutcome }
{}
