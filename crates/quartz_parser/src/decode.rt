//! The tokens of a text with their values.

ghost use Rattle.std.specs.Prelude.{◌≡◌, ◌≤◌, ◌<◌, ◌^◌, List, ℕ, true, length};
ghost use Rattle.std.specs.List.{AllPass};
ghost use Rattle.quartz_tree.specs.declared.place.Place.{Place};
ghost use Rattle.quartz_lexer.specs.Lexing.{lexeme, IsTokenIn};
ghost use Rattle.quartz_lexer.specs.Spelling.{IsWord, Spells};
ghost use Rattle.quartz_parser.specs.Tokens.{name as name_token};
ghost use Rattle.quartz_parser.specs.Symbols.{bits_value, digits as digits_of, token_of, token_with};
ghost use Rattle.quartz_parser.specs.Items.{is_digit_of, is_fixed};
ghost use Rattle.quartz_parser.specs.Views.{token};

use crate::item::Item;
use crate::symbol::{Symbol, classify};
use quartz_lexer::{Token, TokenKind};

// The number that digits spell in a base.
fn number_in(base: u128, word: &[u8]) -> u128
    requires digits { AllPass (is_digit_of base) word.now }
    requires positive { 0 < base }
    requires fits { base ^ length word.now ≤ 2 ^ 128 }
    ensures { result ≡ digits_of base word.now }
{
    let mut value = 0;
    for digit in word {
        value = value * base + u128::from(*digit - b'0');
    }
    value
}

fn name_in(word: &[u8]) -> Item<'_>
    requires { IsWord word.now }
    ensures { (p : Place) → token result p ≡ name_token word.now p }
{
    match str::from_utf8(word) {
        Ok(name) => Item::Name(name),
        Err(_) => Item::Other,
    }
}

fn decimal(word: &[u8]) -> u128
    requires { Spells TokenKind.Number word.now }
    ensures { result ≡ digits_of 10 word.now }
{
    number_in(10, word)
}

// The value of bits of more than 32 digits counts as 0.
fn binary(word: &[u8]) -> u128
    requires { Spells TokenKind.Bits word.now }
    ensures { result ≡ bits_value word.now }
{
    let digits = &word[2..];
    if digits.len() > 32 {
        0
    } else {
        number_in(2, digits)
    }
}

// A keyword or a sign.
fn fixed_item(symbol: Symbol) -> Item<'static>
    ensures { (text : List ℕ) (p : Place) → is_fixed symbol ≡ true →
        token result p ≡ token_with symbol text p }
{
    match symbol {
        Symbol::Mark(mark) => Item::Mark(mark),
        Symbol::Truth(value) => Item::Truth(value),
        Symbol::Storage(storage) => Item::Storage(storage),
        Symbol::Scalar(scalar) => Item::Scalar(scalar),
        Symbol::Infix(op) => Item::Infix(op),
        Symbol::Preempt(abort) => Item::Preempt(abort),
        Symbol::Name | Symbol::Number | Symbol::Bits | Symbol::Other => Item::Other,
    }
}

/// A token of a text, with its value.
pub fn read_item<'a>(found: &Token, text: &'a [u8]) -> Item<'a>
    requires token { IsTokenIn text.now found.now }
    requires short { length text.now ≤ 65536 }
    ensures { token result found.now.place ≡ token_of (lexeme text.now found.now) }
{
    let word = &text[found.start as usize..found.end as usize];
    match found.kind {
        TokenKind::Name => name_in(word),
        TokenKind::Number => Item::Number(decimal(word)),
        TokenKind::Bits => Item::Bits {
            width: (word.len() - 2) as u32,
            value: binary(word),
        },
        TokenKind::Keyword => fixed_item(classify(TokenKind::Keyword, word)),
        TokenKind::Sign => fixed_item(classify(TokenKind::Sign, word)),
    }
}
