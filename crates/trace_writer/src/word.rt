//! The words of a line.

ghost use Rattle.std.specs.Prelude.{◌≡◌, ◌≤◌, ◌+◌, ◌*◌, ◌++◌, ◌∷◌, ◌<◌, [], pos, slice_index_or, true, min, length, All, vec_capacity, if◌then◌else◌};
ghost use Rattle.quartz_expr.specs.Intervals.{base_interval, is_in, is_sound_base};
ghost use Rattle.trace_io.specs.Values.{in_range};
ghost use Rattle.trace_io.specs.Writing.{all_in_range};
ghost use Rattle.trace_writer.specs.Anew.{new_word, new_line};

use crate::format::Format;
use quartz_tree::Base;
use trace_io::{is_in_range, push_value};

// A value of a type has at most 34 bytes, and one blank or the line's end behind it.
pub(crate) const WORD_ROOM: usize = 35;

// The value, or 0 where it is out of its type's range.
fn value_within(base: Base, value: i64) -> i64
    requires { is_sound_base base ≡ true }
    ensures value { result ≡ in_range base value }
    ensures within { is_in (base_interval base) result ≡ true }
{
    if is_in_range(base, value) { value } else { 0 }
}

// Adds the word of an element to a line.
fn push_word(line: &mut Vec<u8>, format: Format, base: Base, last: i64, value: i64)
    requires sound { is_sound_base base ≡ true }
    requires room { length line.old.items + 34 ≤ vec_capacity line.old }
    ensures text { line.new.items ≡ line.old.items
        ++ new_word format base last (in_range base value) }
    ensures size { length line.new.items ≤ length line.old.items + 34 }
    ensures room_stays { vec_capacity line.old ≤ vec_capacity line.new }
{
    let value = value_within(base, value);
    if format.may_keep() && last == value {
        line.push_reserved(b'_');
    } else {
        push_value(line, base, value);
    }
}

// Adds a blank where a word stands before.
fn push_blank(line: &mut Vec<u8>, is_first: bool)
    requires { length line.old.items + 1 ≤ vec_capacity line.old }
    ensures text { line.new.items ≡ line.old.items ++ (if is_first then [] else 32 ∷ []) }
    ensures size { length line.new.items ≤ length line.old.items + 1 }
    ensures room_stays { vec_capacity line.old ≤ vec_capacity line.new }
{
    if is_first {
        return;
    }
    line.push_reserved(b' ');
}

// The value with that number.
fn value_at(values: &[i64], at: usize) -> i64
    requires { at < length values.now }
    ensures { result ≡ slice_index_or values.now at (pos 0) }
{
    values[at]
}

// How many of the elements have a last value and a value.
fn count_whole(types: &[Base], last: &[i64], values: &[i64]) -> usize
    ensures { result ≡ min (length types.now) (min (length last.now) (length values.now)) }
{
    types.len().min(last.len().min(values.len()))
}

/// Makes the line of a step in place of what stands there. An element without a value gets no word.
pub(crate) fn make_line(
    format: Format,
    types: &[Base],
    last: &[i64],
    values: &[i64],
    line: &mut Vec<u8>,
)
    requires sound { All (λ b. is_sound_base b ≡ true) types.now }
    requires room { length types.now * 35 + 1 ≤ vec_capacity line.old }
    ensures text { line.new.items ≡ new_line format types.now last.now
        (all_in_range types.now values.now) }
    ensures room_stays { vec_capacity line.old ≤ vec_capacity line.new }
{
    line.clear();
    for at in 0..count_whole(types, last, values) {
        push_blank(line, at == 0);
        push_word(
            line,
            format,
            types[at],
            value_at(last, at),
            value_at(values, at),
        );
    }
    line.push_reserved(b'\n');
}
