//! One value as text, read and written.

ghost use Rattle.std.specs.Prelude.{◌≡◌, ◌≤◌, ◌+◌, ◌-◌, ◌*◌, ◌++◌, ◌^◌, ◌<◌, ℕ, true, length, vec_capacity, option_map, unsigned_abs, pos, ◌≤ℤ◌};
ghost use Rattle.quartz_expr.specs.Intervals.{base_interval, is_in, is_sound_base};
ghost use Rattle.trace_io.specs.Values.{is_digit, number_in, digits_behind, truth_in, integer_in, bits_in, spelled, reads_value, binary, value_text, in_range};
ghost use Rattle.trace_io.specs.Capped.{capped, capped_value};

use itoa::Buffer;
use quartz_tree::Base;

// Greater than each value of a type.
const MOST: u64 = 1 << 40;

fn is_digit_of(radix: u8, byte: u8) -> bool
    requires { radix ≤ 10 }
    ensures { result ≡ is_digit radix byte }
{
    b'0' <= byte && byte < b'0' + radix
}

// The number behind those digits with one more, or the bound where that is less.
fn with_digit(radix: u8, number: u64, byte: u8) -> u64
    requires small { (1 ≤ radix) × (radix ≤ 10) × (number ≤ 2 ^ 40) }
    requires digit { is_digit radix byte ≡ true }
    ensures value { result ≡ capped (number * radix + (byte - 48)) }
    ensures within { result ≤ 2 ^ 40 }
{
    (number * u64::from(radix) + u64::from(byte - b'0')).min(MOST)
}

// The number that digits spell, at least one, or the bound where that is less.
fn number_of(radix: u8, digits: &[u8]) -> Option<u64>
    requires { (1 ≤ radix) × (radix ≤ 10) }
    ensures { result ≡ option_map capped (number_in radix digits.now) }
{
    if digits.is_empty() {
        return None;
    }
    let mut number = 0;
    for byte in digits {
        if !is_digit_of(radix, *byte) {
            return None;
        }
        number = with_digit(radix, number, *byte);
    }
    Some(number)
}

fn truth_of(word: &[u8]) -> Option<i64>
    ensures { result ≡ option_map capped_value (truth_in word.now) }
{
    match word {
        [b'0'] => Some(0),
        [b'1'] => Some(1),
        _ => None,
    }
}

#[tactic(auto, using(crate::proofs::ValueLemmas::capped_negative, crate::proofs::ValueLemmas::capped_positive))]
fn integer_of(word: &[u8]) -> Option<i64>
    ensures { result ≡ option_map capped_value (integer_in word.now) }
{
    match word {
        [b'-', digits @ ..] => {
            let number = number_of(10, digits)?;
            Some(-(number as i64))
        }
        _ => {
            let number = number_of(10, word)?;
            Some(number as i64)
        }
    }
}

#[tactic(auto, using(crate::proofs::ValueLemmas::capped_positive))]
fn bits_of(width: u32, word: &[u8]) -> Option<i64>
    ensures { result ≡ option_map capped_value (bits_in width word.now) }
{
    match word {
        [b'0', b'b', digits @ ..] if digits.len() == width as usize => {
            let number = number_of(2, digits)?;
            Some(number as i64)
        }
        _ => None,
    }
}

// The number that a word spells as a value of that type, or the bound where it is beyond.
fn spelled_of(base: Base, word: &[u8]) -> Option<i64>
    requires { is_sound_base base ≡ true }
    ensures { result ≡ option_map capped_value (spelled base word.now) }
{
    match base {
        Base::Bool => truth_of(word),
        Base::Nat(_) | Base::Int(_) => integer_of(word),
        Base::Bv(width) => bits_of(width as u32, word),
    }
}

/// Whether a number lies in a type's range.
pub fn is_in_range(base: Base, value: i64) -> bool
    requires { is_sound_base base ≡ true }
    ensures { result ≡ is_in (base_interval base) value }
{
    match base {
        Base::Bool => 0 <= value && value <= 1,
        Base::Nat(count) => 0 <= value && value <= count as i64 - 1,
        Base::Int(count) => -(count as i64) <= value && value <= count as i64 - 1,
        Base::Bv(width) => 0 <= value && value <= (1i64 << (width as u32)) - 1,
    }
}

/// The value that a word is, in its type's range, if it is one.
#[tactic(auto, using(crate::proofs::ValueLemmas::read_capped))]
pub fn read_value(base: Base, word: &[u8]) -> Option<i64>
    requires { is_sound_base base ≡ true }
    ensures { result ≡ reads_value base word.now }
{
    let value = spelled_of(base, word)?;
    if is_in_range(base, value) {
        Some(value)
    } else {
        None
    }
}

// Adds the lowest bits of a number, so many, the highest first.
fn push_bits(line: &mut Vec<u8>, width: u32, number: u64)
    requires few { width ≤ 32 }
    requires room { length line.old.items + width ≤ vec_capacity line.old }
    ensures text { line.new.items ≡ line.old.items ++ binary width number }
    ensures size { length line.new.items ≤ length line.old.items + width }
    ensures room_stays { vec_capacity line.old ≤ vec_capacity line.new }
{
    let mut left = width;
    while left > 0 {
        left -= 1;
        line.push_reserved(b'0' + ((number >> left) % 2) as u8);
    }
}

// Adds the decimal digits of a number.
fn push_integer(line: &mut Vec<u8>, value: i64)
    requires room { length line.old.items + 20 ≤ vec_capacity line.old }
    ensures text { line.new.items ≡ line.old.items ++ value_text (Base.Int 1) value }
    ensures size { length line.new.items ≤ length line.old.items + 20 }
    ensures room_stays { vec_capacity line.old ≤ vec_capacity line.new }
{
    let mut digits = Buffer::new();
    line.extend_from_slice(digits.format(value).as_bytes())
        .unwrap();
}

/// Adds the text of a value in its type's range to a line, which has room for 34 bytes more.
pub fn push_value(line: &mut Vec<u8>, base: Base, value: i64)
    requires sound { is_sound_base base ≡ true }
    requires within { is_in (base_interval base) value ≡ true }
    requires room { length line.old.items + 34 ≤ vec_capacity line.old }
    ensures text { line.new.items ≡ line.old.items ++ value_text base value }
    ensures size { length line.new.items ≤ length line.old.items + 34 }
    ensures room_stays { vec_capacity line.old ≤ vec_capacity line.new }
{
    match base {
        Base::Bool => line.push_reserved(if value == 0 { b'0' } else { b'1' }),
        Base::Nat(_) | Base::Int(_) => push_integer(line, value),
        Base::Bv(width) => {
            line.push_reserved(b'0');
            line.push_reserved(b'b');
            push_bits(line, width as u32, value as u64);
        }
    }
}
