//! That the reader and the grammar agree.

ghost use Rattle.std.specs.Prelude.{List};
ghost use Rattle.quartz_lexer.specs.Lexing.{Lexeme};
ghost use Rattle.quartz_parser.specs.Parsing.{HasOneModule, HasOneText, ReadsModules, ReadsTexts};

/// A value that stands for the law.
#[derive(Clone, Copy, Debug, PartialEq, Eq)]
pub struct Law;

/// Tokens derive at most one module and at most one text, or break S2 at exactly one place; and the
/// reader of `specs/Machine.antt` ends with the module or text that they derive, or stops at that
/// place.
pub fn law_of_reading() -> Law
    ensures one_module { (tokens : List Lexeme) → HasOneModule tokens }
    ensures one_text { (tokens : List Lexeme) → HasOneText tokens }
    ensures modules { (tokens : List Lexeme) → ReadsModules tokens }
    ensures texts { (tokens : List Lexeme) → ReadsTexts tokens }
{
    Law
}
