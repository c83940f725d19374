//! What a token stands for in the grammar.

ghost use Rattle.std.specs.Prelude.{◌≡◌, map};
ghost use Rattle.quartz_parser.specs.Symbols.{symbol_of, find as found};

use quartz_lexer::TokenKind;
use quartz_tree::{Binary, Storage};

/// A keyword or sign that stands for itself alone.
#[derive(Clone, Copy, Debug, PartialEq, Eq)]
pub enum Mark {
    Module,
    Bool,
    Nothing,
    Pause,
    Halt,
    Await,
    Immediate,
    Weak,
    When,
    Emit,
    Next,
    If,
    Else,
    Loop,
    Always,
    While,
    Do,
    ToNat,
    ToBv,
    Open,
    Close,
    OpenBrace,
    CloseBrace,
    OpenBracket,
    CloseBracket,
    Comma,
    Semicolon,
    Colon,
    Question,
    Bang,
    Equals,
    Bars,
}

/// The scalar types that have a number.
#[derive(Clone, Copy, Debug, PartialEq, Eq)]
pub enum Scalar {
    Nat,
    Int,
    Bv,
}

/// What a token stands for. A name, a number and bits have their values in their text.
#[derive(Clone, Copy, Debug, PartialEq, Eq)]
pub enum Symbol {
    Mark(Mark),
    Name,
    Number,
    Bits,
    Truth(bool),
    Storage(Storage),
    Scalar(Scalar),
    /// A sign between two operands, `-` too.
    Infix(Binary),
    /// `abort`, and `suspend` with false.
    Preempt(bool),
    Other,
}

const KEYWORDS: [(&[u8], Symbol); 28] = [
    (b"module", Symbol::Mark(Mark::Module)),
    (b"bool", Symbol::Mark(Mark::Bool)),
    (b"nothing", Symbol::Mark(Mark::Nothing)),
    (b"pause", Symbol::Mark(Mark::Pause)),
    (b"halt", Symbol::Mark(Mark::Halt)),
    (b"await", Symbol::Mark(Mark::Await)),
    (b"immediate", Symbol::Mark(Mark::Immediate)),
    (b"weak", Symbol::Mark(Mark::Weak)),
    (b"when", Symbol::Mark(Mark::When)),
    (b"emit", Symbol::Mark(Mark::Emit)),
    (b"next", Symbol::Mark(Mark::Next)),
    (b"if", Symbol::Mark(Mark::If)),
    (b"else", Symbol::Mark(Mark::Else)),
    (b"loop", Symbol::Mark(Mark::Loop)),
    (b"always", Symbol::Mark(Mark::Always)),
    (b"while", Symbol::Mark(Mark::While)),
    (b"do", Symbol::Mark(Mark::Do)),
    (b"bv2nat", Symbol::Mark(Mark::ToNat)),
    (b"nat2bv", Symbol::Mark(Mark::ToBv)),
    (b"true", Symbol::Truth(true)),
    (b"false", Symbol::Truth(false)),
    (b"event", Symbol::Storage(Storage::Event)),
    (b"mem", Symbol::Storage(Storage::Mem)),
    (b"nat", Symbol::Scalar(Scalar::Nat)),
    (b"int", Symbol::Scalar(Scalar::Int)),
    (b"bv", Symbol::Scalar(Scalar::Bv)),
    (b"abort", Symbol::Preempt(true)),
    (b"suspend", Symbol::Preempt(false)),
];

const SIGNS: [(&[u8], Symbol); 30] = [
    (b"(", Symbol::Mark(Mark::Open)),
    (b")", Symbol::Mark(Mark::Close)),
    (b"{", Symbol::Mark(Mark::OpenBrace)),
    (b"}", Symbol::Mark(Mark::CloseBrace)),
    (b"[", Symbol::Mark(Mark::OpenBracket)),
    (b"]", Symbol::Mark(Mark::CloseBracket)),
    (b",", Symbol::Mark(Mark::Comma)),
    (b";", Symbol::Mark(Mark::Semicolon)),
    (b":", Symbol::Mark(Mark::Colon)),
    (b"?", Symbol::Mark(Mark::Question)),
    (b"!", Symbol::Mark(Mark::Bang)),
    (b"=", Symbol::Mark(Mark::Equals)),
    (b"||", Symbol::Mark(Mark::Bars)),
    (b"<->", Symbol::Infix(Binary::Iff)),
    (b"->", Symbol::Infix(Binary::Implies)),
    (b"|", Symbol::Infix(Binary::Or)),
    (b"^", Symbol::Infix(Binary::Xor)),
    (b"&", Symbol::Infix(Binary::And)),
    (b"==", Symbol::Infix(Binary::Eq)),
    (b"!=", Symbol::Infix(Binary::Ne)),
    (b"<", Symbol::Infix(Binary::Lt)),
    (b"<=", Symbol::Infix(Binary::Le)),
    (b">", Symbol::Infix(Binary::Gt)),
    (b">=", Symbol::Infix(Binary::Ge)),
    (b"@", Symbol::Infix(Binary::Cat)),
    (b"+", Symbol::Infix(Binary::Add)),
    (b"-", Symbol::Infix(Binary::Sub)),
    (b"*", Symbol::Infix(Binary::Mul)),
    (b"/", Symbol::Infix(Binary::Div)),
    (b"%", Symbol::Infix(Binary::Rem)),
];

/// What stands beside the text in the table.
fn find(table: &[(&[u8], Symbol)], text: &[u8]) -> Symbol
    ensures { result ≡ found (map (λ e. (e.0.now, e.1)) table.now) text.now }
{
    for entry in table {
        if entry.0 == text {
            return entry.1;
        }
    }
    Symbol::Other
}

/// What a token of this kind and text stands for.
pub fn classify(kind: TokenKind, text: &[u8]) -> Symbol
    ensures { result ≡ symbol_of kind text.now }
{
    match kind {
        TokenKind::Name => Symbol::Name,
        TokenKind::Number => Symbol::Number,
        TokenKind::Bits => Symbol::Bits,
        TokenKind::Keyword => find(&KEYWORDS, text),
        TokenKind::Sign => find(&SIGNS, text),
    }
}
