//! The operators on numbers.

ghost use Rattle.std.specs.Prelude.{◌≡◌, ◌+◌, ◌/◌, ◌%◌, ◌^◌, pos, if◌then◌else◌};
ghost use Rattle.aif_cells.specs.Worth.{apply_one, apply_two, bits_between, fitted, flipped, holds, stacked, wrapped};
ghost use Rattle.flat_steps.specs.Steps.{picked};

use aif_cells::{TreeOne, TreeTwo};

#[inline(always)]
pub(crate) fn apply_to_one(op: TreeOne, a: i64) -> i64
    ensures { result ≡ apply_one op a }
{
    match op {
        TreeOne::Not => (a == 0) as i64,
        TreeOne::Neg => a.wrapping_neg(),
    }
}

#[inline(always)]
pub(crate) fn apply_to_two(op: TreeTwo, a: i64, b: i64) -> i64
    ensures { result ≡ apply_two op a b }
{
    match op {
        TreeTwo::And => (a != 0 && b != 0) as i64,
        TreeTwo::Or => (a != 0 || b != 0) as i64,
        TreeTwo::Xor => ((a != 0) != (b != 0)) as i64,
        TreeTwo::Eq => (a == b) as i64,
        TreeTwo::Ne => (a != b) as i64,
        TreeTwo::Lt => (a < b) as i64,
        TreeTwo::Le => (a <= b) as i64,
        TreeTwo::Gt => (a > b) as i64,
        TreeTwo::Ge => (a >= b) as i64,
        TreeTwo::Add => a.wrapping_add(b),
        TreeTwo::Sub => a.wrapping_sub(b),
        TreeTwo::Mul => a.wrapping_mul(b),
        TreeTwo::Div => divide(a, b),
        TreeTwo::Rem => remain(a, b),
        TreeTwo::Band => a & b,
        TreeTwo::Bor => a | b,
        TreeTwo::Bxor => a ^ b,
    }
}

// The quotient rounded towards zero, and 0 for a zero divisor.
fn divide(a: i64, b: i64) -> i64
    ensures { result ≡ apply_two TreeTwo.Div a b }
{
    if b == 0 { 0 } else { a.wrapping_div(b) }
}

// The remainder with the dividend's sign, and 0 for a zero divisor.
fn remain(a: i64, b: i64) -> i64
    ensures { result ≡ apply_two TreeTwo.Rem a b }
{
    if b == 0 { 0 } else { a.wrapping_rem(b) }
}

#[inline(always)]
pub(crate) fn fit(low: i64, high: i64, a: i64) -> i64
    ensures { result ≡ fitted low high a }
{
    if low <= a && a <= high { a } else { 0 }
}

// A power of two, as it stands in 64 bits.
fn power(exponent: u32) -> i64
    ensures { result ≡ wrapped (pos (2 ^ exponent)) }
{
    if exponent < 64 {
        (1u64 << exponent).cast_signed()
    } else {
        0
    }
}

#[inline(always)]
pub(crate) fn flip(width: u32, a: i64) -> i64
    ensures { result ≡ flipped width a }
{
    a ^ power(width).wrapping_add(-1)
}

#[inline(always)]
pub(crate) fn stack(width: u32, high: i64, low: i64) -> i64
    ensures { result ≡ stacked width high low }
{
    high.wrapping_mul(power(width)).wrapping_add(low)
}

#[inline(always)]
pub(crate) fn slice(high: u32, low: u32, a: i64) -> i64
    ensures { result ≡ bits_between high low a }
{
    let bits = without_low(a.cast_unsigned(), low);
    lowest(bits, high.saturating_sub(low)).cast_signed()
}

// The bits above so many lowest ones.
fn without_low(bits: u64, low: u32) -> u64
    ensures { result ≡ bits / 2 ^ low }
{
    if low < 64 { bits >> low } else { 0 }
}

// The lowest bit, and so many more.
fn lowest(bits: u64, more: u32) -> u64
    ensures { result ≡ bits % 2 ^ (more + 1) }
{
    if more < 63 {
        bits % (1 << (more + 1))
    } else {
        bits
    }
}

#[inline(always)]
pub(crate) fn choose(cond: i64, yes: i64, no: i64) -> i64
    ensures { result ≡ (if holds cond then yes else no) }
{
    if cond != 0 { yes } else { no }
}

#[inline(always)]
pub(crate) fn pick(item: i64, index: i64, yes: i64, no: i64) -> i64
    ensures { result ≡ picked item index yes no }
{
    if index == item { yes } else { no }
}
