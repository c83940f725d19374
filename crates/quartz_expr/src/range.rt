//! The ranges of types.

ghost use Rattle.std.specs.Prelude.{◌≡◌, true};
ghost use Rattle.quartz_expr.specs.Intervals.{base_interval, is_sound_base, is_sound_length, range_of, span, type_interval};

use quartz_tree::{Base, Ty, Var};

/// The whole numbers from `low` to `high`.
#[derive(Clone, Copy, Debug, PartialEq, Eq)]
pub struct Span {
    pub low: i64,
    pub high: i64,
}

/// Whether the number of a scalar type keeps its bounds.
pub fn is_sound_base(base: Base) -> bool
    ensures { result ≡ is_sound_base base }
{
    match base {
        Base::Bool => true,
        Base::Nat(n) | Base::Int(n) => 1 <= n && n <= 1 << 31,
        Base::Bv(n) => 1 <= n && n <= 32,
    }
}

/// Whether an array's length keeps its bounds.
pub fn is_sound_length(len: Option<u128>) -> bool
    ensures { result ≡ is_sound_length len }
{
    match len {
        None => true,
        Some(len) => 1 <= len && len <= 64,
    }
}

/// The values of a scalar type that keeps its bounds.
pub fn base_range(base: Base) -> Span
    requires { is_sound_base base ≡ true }
    ensures { span result.low result.high ≡ base_interval base }
{
    match base {
        Base::Bool => Span { low: 0, high: 1 },
        Base::Nat(n) => Span {
            low: 0,
            high: n as i64 - 1,
        },
        Base::Int(n) => Span {
            low: -(n as i64),
            high: n as i64 - 1,
        },
        Base::Bv(n) => Span {
            low: 0,
            high: (1 << n as u32) - 1,
        },
    }
}

/// The values of an element of that type, and 0 alone where the type breaks its bounds.
pub fn type_range(ty: Ty) -> Span
    ensures { span result.low result.high ≡ type_interval ty }
{
    if is_sound_base(ty.base) && is_sound_length(ty.len) {
        base_range(ty.base)
    } else {
        Span { low: 0, high: 0 }
    }
}

/// The values of a variable's elements, and 0 alone where there is no such variable.
pub fn range_in(vars: &[Var], var: u32) -> Span
    ensures { span result.low result.high ≡ range_of vars.now var }
{
    match vars.get(var as usize) {
        Some(variable) => type_range(variable.decl.ty),
        None => Span { low: 0, high: 0 },
    }
}
