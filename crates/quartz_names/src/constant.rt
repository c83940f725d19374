//! The constants of declarations, and the start values that they give.

ghost use Rattle.std.specs.Prelude.{◌≡◌, true};
ghost use Rattle.quartz_expr.specs.Intervals.{is_in, type_interval};
ghost use Rattle.quartz_names.specs.Starts.{constant_value, has_kind_of, is_sound_constant, is_within, start_value};

use quartz_expr::{counted_width, type_range};
use quartz_tree::{Base, Decl, Start, Ty};

/// The greatest number that a text may hold.
const GREATEST: u128 = 1 << 62;

/// Whether a constant has the kind of an element of that type.
pub fn has_kind_of(ty: Ty, value: Start) -> bool
    ensures { result ≡ has_kind_of ty value }
{
    match (value, ty.base) {
        (Start::Truth(_), Base::Bool) => true,
        (Start::Number { .. }, Base::Nat(_) | Base::Int(_)) => true,
        (Start::Bits { width, .. }, Base::Bv(bits)) => {
            counted_width(width as u128) == counted_width(bits)
        }
        _ => false,
    }
}

fn is_sound_constant(value: Start) -> bool
    ensures { result ≡ is_sound_constant value }
{
    match value {
        Start::Truth(_) => true,
        Start::Number { value, .. } => value <= GREATEST,
        Start::Bits { width, value } => width <= 32 && value <= GREATEST,
    }
}

// The value of a constant that keeps its own bounds.
fn constant_value(value: Start) -> i64
    requires { is_sound_constant value ≡ true }
    ensures { result ≡ constant_value value }
{
    match value {
        Start::Truth(value) => value as i64,
        Start::Number { negative, value } => {
            if negative {
                -(value as i64)
            } else {
                value as i64
            }
        }
        Start::Bits { value, .. } => value as i64,
    }
}

/// Whether a constant keeps its own bounds and lies in the range of that type.
pub fn is_within(ty: Ty, value: Start) -> bool
    ensures { result ≡ is_within ty value }
{
    if !is_sound_constant(value) {
        return false;
    }
    let range = type_range(ty);
    let number = constant_value(value);
    range.low <= number && number <= range.high
}

/// The start value of a declaration's elements: its constant's where that has the type's kind and
/// lies in its range, and else 0.
pub fn start_value(decl: &Decl) -> i64
    ensures { result ≡ start_value decl.now }
{
    match decl.init {
        Some(init) if has_kind_of(decl.ty, init.value) && is_within(decl.ty, init.value) => {
            constant_value(init.value)
        }
        _ => 0,
    }
}
