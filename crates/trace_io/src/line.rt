//! The values of a line.

ghost use Rattle.std.specs.Prelude.{◌≡◌, ◌<◌, ◌≤◌, true, length, take, drop};
ghost use Rattle.quartz_expr.specs.Intervals.{is_sound_base};
ghost use Rattle.trace_io.specs.Lines.{is_blank, words, without_last, text_in};
ghost use Rattle.trace_io.specs.Scan.{unblanked, front_word, behind_word, next_by, reads_by, Placed, AreFields};

use crate::field::Field;
use crate::value::read_value;

fn is_separator(byte: u8) -> bool
    ensures { result ≡ is_blank byte }
{
    byte == b' ' || byte == b'\t'
}

/// The text behind the blanks and tabs at its front.
pub(crate) fn trim_front(text: &[u8]) -> &[u8]
    ensures { result.now ≡ unblanked text.now }
{
    let mut at = 0;
    while at < text.len() && is_separator(text[at]) {
        at += 1;
    }
    &text[at..]
}

/// The length of the word at the front.
pub(crate) fn word_length(text: &[u8]) -> usize
    ensures within { result ≤ length text.now }
    ensures front { take result text.now ≡ front_word text.now }
    ensures behind { drop result text.now ≡ behind_word text.now }
{
    let mut end = 0;
    while end < text.len() && !is_separator(text[end]) {
        end += 1;
    }
    end
}

// Puts the value of a word into its place, or leaves the one that is there where `_` may keep it.
fn place_value(field: Field, may_keep: bool, word: &[u8], last: &mut [i64]) -> bool
    requires place { field.place < length last.old }
    requires sound { is_sound_base field.base ≡ true }
    ensures { Placed (next_by may_keep field word.now last.old) result last.new }
{
    if may_keep && word == b"_".as_slice() {
        return true;
    }
    match read_value(field.base, word) {
        Some(value) => {
            last[field.place] = value;
            true
        }
        None => false,
    }
}

/// Reads one word for each of these elements into its place. Where `may_keep`, the word `_` keeps
/// the value that is there. It answers whether there are so many words, each readable.
pub fn read_fields(fields: &[Field], may_keep: bool, text: &[u8], last: &mut [i64]) -> bool
    requires { AreFields (length last.old) fields.now }
    ensures { Placed (reads_by may_keep fields.now (words text.now) last.old) result last.new }
{
    let mut rest = text;
    for field in fields {
        let front = trim_front(rest);
        let end = word_length(front);
        if end == 0 {
            return false;
        }
        if !place_value(*field, may_keep, &front[..end], last) {
            return false;
        }
        rest = &front[end..];
    }
    trim_front(rest).is_empty()
}

// Without the last byte, where that is this one.
#[tactic(auto, using(crate::proofs::LineLemmas::without_equal, crate::proofs::LineLemmas::without_other))]
fn without(byte: u8, bytes: &[u8]) -> &[u8]
    ensures { result.now ≡ without_last byte bytes.now }
{
    match bytes {
        [] => bytes,
        [rest @ .., last] => { if *last == byte { rest } else { bytes } }
    }
}

/// What stands in a line without its LF: one CR at its end is dropped.
pub fn text_of(line: &[u8]) -> &[u8]
    ensures { result.now ≡ text_in line.now }
{
    without(b'\r', without(b'\n', line))
}
