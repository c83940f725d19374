//! A text is cut into its tokens from the left.

ghost use Rattle.std.specs.Prelude.{◌≡◌, ◌<◌, ◌≤◌, ◌+◌, ◌^◌, length, IfOk, OnOk, IsErrOf};
ghost use Rattle.quartz_tree.specs.declared.place.Place.{Place};
ghost use Rattle.quartz_lexer.specs.Lexing.{place_after, AreTokensOf, Breaks, HasOneOutcome};

use crate::fault::LexFault;
use crate::piece::{Piece, first_piece};
use crate::token::{Token, Tokens};
use quartz_tree::Place;
use std::alloc::Global;

/// The most bytes that a text may have.
const MAX_BYTES: usize = 65_536;

/// The place behind these bytes.
fn advance(mut place: Place, bytes: &[u8]) -> Place
    requires line_fits { place.line + length bytes.now < 2 ^ 32 }
    requires col_fits { place.col + length bytes.now < 2 ^ 32 }
    ensures { result ≡ place_after place bytes.now }
{
    for byte in bytes {
        if *byte == b'\n' {
            place = Place {
                line: place.line + 1,
                col: 1,
            };
        } else {
            place.col += 1;
        }
    }
    place
}

/// The tokens of a text, by the longest match from the left, in time linear in the text.
///
/// Where memory is refused, a text that breaks S1 may answer [`LexFault::NoMemory`] too.
#[tactic(auto, using(crate::proofs::Laws::one_outcome))]
pub fn lex(alloc: Global, text: &[u8]) -> Result<Tokens, LexFault>
    ensures tokens { IfOk result (λ tokens. AreTokensOf text.now tokens) }
    ensures unbroken { OnOk result ((p : Place) → ¬ (Breaks text.now p)) }
    ensures broken { (p : Place) → IsErrOf result (LexFault.S1 p) → Breaks text.now p }
    ensures law { HasOneOutcome text.now }
{
    let mut place = Place { line: 1, col: 1 };
    if text.len() > MAX_BYTES {
        return Err(LexFault::S1(place));
    }
    let mut items = Vec::new(alloc);
    let mut at = 0;
    while at < text.len() {
        let end = match first_piece(&text[at..]) {
            Piece::Gap(len) => at + len,
            Piece::Word(kind, len) => {
                items.push(Token {
                    kind,
                    start: at as u32,
                    end: (at + len) as u32,
                    place,
                })?;
                at + len
            }
            Piece::Stuck => return Err(LexFault::S1(place)),
        };
        place = advance(place, &text[at..end]);
        at = end;
    }
    Ok(Tokens { items, end: place })
}
