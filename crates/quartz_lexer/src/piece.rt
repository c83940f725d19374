//! What stands at the front of a text: a blank, a comment or a token.

ghost use Rattle.std.specs.Prelude.{◌≡◌, ◌<◌, ◌≤◌, ◌↔◌, true, length, map, slice_index, Contains, IsTrue, MatchOption, codes};
ghost use Rattle.std.specs.List.{prefix_len};
ghost use Rattle.quartz_lexer.specs.Spelling.{is_blank, is_digit, is_letter, keywords};
ghost use Rattle.quartz_lexer.specs.Lexing.{BeginsWith, HasClose};
ghost use Rattle.quartz_lexer.specs.Piece.{bit_digits, first_len, is_in, ClosesAt, IsOther, IsPiece};

use crate::token::TokenKind;

/// The most digits that a number may have.
const MAX_DIGITS: usize = 38;

const KEYWORDS: [&[u8]; 28] = [
    b"module",
    b"event",
    b"mem",
    b"bool",
    b"nat",
    b"int",
    b"bv",
    b"nothing",
    b"pause",
    b"halt",
    b"await",
    b"immediate",
    b"weak",
    b"abort",
    b"suspend",
    b"when",
    b"emit",
    b"next",
    b"if",
    b"else",
    b"loop",
    b"always",
    b"while",
    b"do",
    b"true",
    b"false",
    b"bv2nat",
    b"nat2bv",
];

/// The signs, the longest first.
const SIGNS: [&[u8]; 30] = [
    b"<->", b"==", b"!=", b"<=", b">=", b"||", b"->", b"(", b")", b"{", b"}", b"[", b"]", b",",
    b";", b":", b"?", b"!", b"=", b"<", b">", b"+", b"-", b"*", b"/", b"%", b"&", b"|", b"^", b"@",
];

/// Classes of bytes of which a run is read.
#[derive(Clone, Copy)]
enum Class {
    Digit,
    Binary,
    /// What may stand in a name.
    Word,
    /// All but LF.
    InLine,
}

/// What stands at the front of a text, with its length in bytes.
#[derive(Clone, Copy)]
pub enum Piece {
    /// A blank or a comment.
    Gap(usize),
    Word(TokenKind, usize),
    /// Nothing that a text may have there.
    Stuck,
}

fn is_blank(byte: u8) -> bool
    ensures { result ≡ is_blank byte }
{
    matches!(byte, b' ' | b'\t' | b'\r' | b'\n')
}

fn is_letter(byte: u8) -> bool
    ensures { result ≡ is_letter byte }
{
    byte.is_ascii_alphabetic() || byte == b'_'
}

fn is_in(class: Class, byte: u8) -> bool
    ensures { result ≡ is_in class byte }
{
    match class {
        Class::Digit => byte.is_ascii_digit(),
        Class::Binary => byte == b'0' || byte == b'1',
        Class::Word => is_letter(byte) || byte.is_ascii_digit(),
        Class::InLine => byte != b'\n',
    }
}

/// How many bytes of the class the text begins with.
fn run_len(class: Class, text: &[u8]) -> usize
    ensures { result ≡ prefix_len (is_in class) text.now }
{
    text.iter().take_while(|byte| is_in(class, **byte)).count()
}

/// How many binary digits stand behind `0b`.
fn bit_digits(text: &[u8]) -> usize
    ensures { result ≡ bit_digits text.now }
{
    if text.starts_with(b"0b") {
        run_len(Class::Binary, &text[2..])
    } else {
        0
    }
}

/// The length of the first entry that the text begins with, or 0.
fn first_len(table: &[&[u8]], text: &[u8]) -> usize
    ensures { result ≡ first_len (map (λ s. s.now) table.now) text.now }
{
    for entry in table {
        if text.starts_with(entry) {
            return entry.len();
        }
    }
    0
}

fn is_keyword(word: &[u8]) -> bool
    ensures { IsTrue result ↔ Contains keywords word.now }
{
    KEYWORDS.contains(&word)
}

/// Where the first `*/` stands.
fn close_of(text: &[u8]) -> Option<usize>
    ensures { MatchOption result (¬ (HasClose text.now)) (λ at. ClosesAt text.now at) }
{
    let mut at = 0;
    while at + 1 < text.len() {
        if text[at] == b'*' && text[at + 1] == b'/' {
            return Some(at);
        }
        at += 1;
    }
    None
}

fn line_comment(text: &[u8]) -> Piece
    requires { BeginsWith (codes "//") text.now }
    ensures { IsPiece text.now result }
{
    Piece::Gap(run_len(Class::InLine, text))
}

fn block_comment(text: &[u8]) -> Piece
    requires { BeginsWith (codes "/*") text.now }
    ensures { IsPiece text.now result }
{
    match close_of(&text[2..]) {
        Some(at) => Piece::Gap(at + 4),
        None => Piece::Stuck,
    }
}

fn word(text: &[u8]) -> Piece
    requires { is_letter (slice_index text.now 0) ≡ true }
    ensures { IsPiece text.now result }
{
    let len = run_len(Class::Word, text);
    if is_keyword(&text[..len]) {
        Piece::Word(TokenKind::Keyword, len)
    } else {
        Piece::Word(TokenKind::Name, len)
    }
}

fn number(text: &[u8]) -> Piece
    requires { is_digit (slice_index text.now 0) ≡ true }
    ensures { IsPiece text.now result }
{
    let bits = bit_digits(text);
    if bits > 0 {
        return Piece::Word(TokenKind::Bits, bits + 2);
    }
    let len = run_len(Class::Digit, text);
    if len <= MAX_DIGITS {
        Piece::Word(TokenKind::Number, len)
    } else {
        Piece::Stuck
    }
}

fn sign(text: &[u8]) -> Piece
    requires { IsOther text.now }
    ensures { IsPiece text.now result }
{
    match first_len(&SIGNS, text) {
        0 => Piece::Stuck,
        len => Piece::Word(TokenKind::Sign, len),
    }
}

/// What stands at the front of the text.
pub fn first_piece(text: &[u8]) -> Piece
    requires { 0 < length text.now }
    ensures { IsPiece text.now result }
{
    let first = text[0];
    if is_blank(first) {
        Piece::Gap(1)
    } else if is_letter(first) {
        word(text)
    } else if first.is_ascii_digit() {
        number(text)
    } else if text.starts_with(b"//") {
        line_comment(text)
    } else if text.starts_with(b"/*") {
        block_comment(text)
    } else {
        sign(text)
    }
}
