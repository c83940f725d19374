//! Intervals of whole numbers, and what operators make of them.

ghost use Rattle.std.specs.Prelude.{◌≡◌, ◌-◌, ◌^◌, ◌≤◌, ◌≤ℤ◌, ◌+ℤ◌, ◌-ℤ◌, ◌*ℤ◌, int_div, neg_ℤ, pos};
ghost use Rattle.quartz_expr.specs.Intervals.{bits_interval, difference_interval, from_ends, hull, is_small, kind_interval, one_interval, only, product_interval, quotient_interval, remainder_interval, size_of, sound_or_nought, span, sum_interval, two_interval};
ghost use Rattle.std.specs.Int.{int_max, int_min};
ghost use Rattle.quartz_expr.specs.Value.{width_in};

use quartz_expr::ExprKind;
use quartz_tree::{Binary, Unary};

/// The whole numbers from `low` to `high`.
#[derive(Clone, Copy, Debug)]
pub(crate) struct Bounds {
    pub low: i64,
    pub high: i64,
    ghost ordered: { low ≤ℤ high },
}

/// The same, before they are known to be small.
#[derive(Clone, Copy, Debug)]
pub(crate) struct Wide {
    pub low: i128,
    pub high: i128,
    ghost ordered: { low ≤ℤ high },
}

/// 0 alone, which stands for what breaks a bound.
pub(crate) fn nought() -> Bounds
    ensures { span result.low result.high ≡ span (pos 0) (pos 0) }
{
    Bounds { low: 0, high: 0 }
}

pub(crate) fn is_small(wide: Wide) -> bool
    ensures { result ≡ is_small (span wide.low wide.high) }
{
    -(1 << 62) <= wide.low && wide.high <= 1 << 62
}

/// The interval, where it is small, and else 0 alone.
pub(crate) fn small_or_nought(wide: Wide) -> Bounds
    ensures { span result.low result.high
        ≡ sound_or_nought (is_small (span wide.low wide.high)) (span wide.low wide.high) }
{
    if is_small(wide) {
        Bounds {
            low: wide.low as i64,
            high: wide.high as i64,
        }
    } else {
        nought()
    }
}

pub(crate) fn hull(a: Bounds, b: Bounds) -> Bounds
    ensures { span result.low result.high ≡ hull (span a.low a.high) (span b.low b.high) }
{
    Bounds {
        low: a.low.min(b.low),
        high: a.high.max(b.high),
    }
}

fn negated(a: Bounds) -> Wide
    ensures { span result.low result.high ≡ span (neg_ℤ a.high) (neg_ℤ a.low) }
{
    Wide {
        low: -(a.high as i128),
        high: -(a.low as i128),
    }
}

fn from_to(low: i128, high: i128) -> Wide
    requires { low ≤ℤ high }
    ensures { span result.low result.high ≡ span low high }
{
    Wide { low, high }
}

fn plus(x: i64, y: i64) -> i128
    ensures { result ≡ x +ℤ y }
{
    x as i128 + y as i128
}

fn minus(x: i64, y: i64) -> i128
    ensures { result ≡ x -ℤ y }
{
    x as i128 - y as i128
}

fn sum(a: Bounds, b: Bounds) -> Wide
    ensures { span result.low result.high ≡ sum_interval (span a.low a.high) (span b.low b.high) }
{
    from_to(plus(a.low, b.low), plus(a.high, b.high))
}

fn difference(a: Bounds, b: Bounds) -> Wide
    ensures { span result.low result.high
        ≡ difference_interval (span a.low a.high) (span b.low b.high) }
{
    from_to(minus(a.low, b.high), minus(a.high, b.low))
}

fn lesser(x: i128, y: i128) -> i128
    ensures value { result ≡ int_min x y }
    ensures left { result ≤ℤ x }
    ensures right { result ≤ℤ y }
{
    x.min(y)
}

fn greater(x: i128, y: i128) -> i128
    ensures value { result ≡ int_max x y }
    ensures left { x ≤ℤ result }
    ensures right { y ≤ℤ result }
{
    x.max(y)
}

// From the least to the greatest of four numbers.
fn of_ends(a: i128, b: i128, c: i128, d: i128) -> Wide
    ensures { span result.low result.high ≡ hull (hull (only a) (only b)) (hull (only c) (only d)) }
{
    from_to(
        lesser(lesser(a, b), lesser(c, d)),
        greater(greater(a, b), greater(c, d)),
    )
}

fn product_of(x: i64, y: i64) -> i128
    ensures { result ≡ x *ℤ y }
{
    x as i128 * y as i128
}

fn product(a: Bounds, b: Bounds) -> Wide
    ensures { span result.low result.high
        ≡ product_interval (span a.low a.high) (span b.low b.high) }
{
    of_ends(
        product_of(a.low, b.low),
        product_of(a.low, b.high),
        product_of(a.high, b.low),
        product_of(a.high, b.high),
    )
}

fn quotient_of(x: i64, y: i64) -> i128
    requires { pos 1 ≤ℤ y }
    ensures { result ≡ int_div x y }
{
    x as i128 / y as i128
}

/// The greatest distance from 0.
fn size(a: Bounds) -> i128
    ensures value { result ≡ pos (size_of (span a.low a.high)) }
    ensures positive { pos 0 ≤ℤ result }
    ensures small { result ≤ℤ pos (2 ^ 63) }
{
    a.low.unsigned_abs().max(a.high.unsigned_abs()) as i128
}

fn widened(x: i64) -> i128
    ensures { result ≡ x }
{
    x as i128
}

fn opposite(x: i128) -> i128
    requires { neg_ℤ (pos (2 ^ 126)) ≤ℤ x }
    ensures { result ≡ neg_ℤ x }
{
    -x
}

// Where the divisor is positive.
fn quotient_of_ends(a: Bounds, b: Bounds) -> Wide
    requires { pos 1 ≤ℤ b.low }
    ensures { span result.low result.high
        ≡ from_ends int_div (span a.low a.high) (span b.low b.high) }
{
    of_ends(
        quotient_of(a.low, b.low),
        quotient_of(a.low, b.high),
        quotient_of(a.high, b.low),
        quotient_of(a.high, b.high),
    )
}

// From the opposite of a number to the number.
fn around_zero(x: i128) -> Wide
    requires positive { pos 0 ≤ℤ x }
    requires small { x ≤ℤ pos (2 ^ 126) }
    ensures { span result.low result.high ≡ span (neg_ℤ x) x }
{
    from_to(opposite(x), x)
}

fn quotient(a: Bounds, b: Bounds) -> Wide
    ensures { span result.low result.high
        ≡ quotient_interval (span a.low a.high) (span b.low b.high) }
{
    if 1 <= b.low {
        return quotient_of_ends(a, b);
    }
    if 0 <= a.low && 0 <= b.low {
        return from_to(0, widened(a.high));
    }
    around_zero(size(a))
}

// Zero, or the number where it is positive, at most the other one.
fn clipped(x: i128, most: i128) -> i128
    requires { pos 0 ≤ℤ most }
    ensures value { result ≡ int_min (int_max (pos 0) x) most }
    ensures positive { pos 0 ≤ℤ result }
    ensures small { result ≤ℤ most }
{
    lesser(greater(0, x), most)
}

fn one_less(x: i128) -> i128
    requires { pos 0 ≤ℤ x }
    ensures { result ≡ x -ℤ pos 1 }
{
    x - 1
}

fn remainder(a: Bounds, b: Bounds) -> Wide
    ensures { span result.low result.high
        ≡ remainder_interval (span a.low a.high) (span b.low b.high) }
{
    let greatest = size(b);
    if greatest == 0 {
        return from_to(0, 0);
    }
    let most = one_less(greatest);
    let low = clipped(opposite(widened(a.low)), most);
    from_to(opposite(low), clipped(widened(a.high), most))
}

/// The power of 2.
pub(crate) fn power(width: u32) -> i64
    requires { width ≤ 62 }
    ensures value { result ≡ pos (2 ^ width) }
    ensures positive { pos 1 ≤ℤ result }
{
    1 << width
}

fn greatest_of_bits(width: u32) -> i64
    requires { width ≤ 62 }
    ensures value { result ≡ pos (2 ^ width - 1) }
    ensures positive { pos 0 ≤ℤ result }
{
    power(width) - 1
}

/// The numbers of so many bits.
pub(crate) fn bits(width: u32) -> Bounds
    requires { width ≤ 62 }
    ensures { span result.low result.high ≡ bits_interval width }
{
    Bounds {
        low: 0,
        high: greatest_of_bits(width),
    }
}

/// The values of a kind, and 0 alone for numbers and where there is no kind.
pub(crate) fn of_kind(kind: Option<ExprKind>) -> Bounds
    requires { width_in kind ≤ 33 }
    ensures { span result.low result.high ≡ kind_interval kind }
{
    match kind {
        Some(ExprKind::Boolean) => Bounds { low: 0, high: 1 },
        Some(ExprKind::Vector(width)) => bits(width),
        Some(ExprKind::Numeric) => nought(),
        None => nought(),
    }
}

fn enlarged(a: Bounds) -> Wide
    ensures { span result.low result.high ≡ span a.low a.high }
{
    from_to(widened(a.low), widened(a.high))
}

/// The interval of an operator before a part.
pub(crate) fn of_one(op: Unary, kind: Option<ExprKind>, a: Bounds) -> Wide
    requires { width_in kind ≤ 33 }
    ensures { span result.low result.high ≡ one_interval op kind (span a.low a.high) }
{
    match op {
        Unary::Neg => negated(a),
        Unary::Not => enlarged(of_kind(kind)),
    }
}

/// The interval of an operator between two parts.
pub(crate) fn of_two(op: Binary, kind: Option<ExprKind>, a: Bounds, b: Bounds) -> Wide
    requires { width_in kind ≤ 33 }
    ensures { span result.low result.high
        ≡ two_interval op kind (span a.low a.high) (span b.low b.high) }
{
    match op {
        Binary::Add => sum(a, b),
        Binary::Sub => difference(a, b),
        Binary::Mul => product(a, b),
        Binary::Div => quotient(a, b),
        Binary::Rem => remainder(a, b),
        Binary::Iff
        | Binary::Implies
        | Binary::Or
        | Binary::Xor
        | Binary::And
        | Binary::Eq
        | Binary::Ne
        | Binary::Lt
        | Binary::Le
        | Binary::Gt
        | Binary::Ge
        | Binary::Cat => enlarged(of_kind(kind)),
    }
}
