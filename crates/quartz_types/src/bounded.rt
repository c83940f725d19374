//! The interval of an expression, and the rule of bounds in it.

ghost use Rattle.std.specs.Prelude.{◌≡◌, not, ◌^◌, ◌≤◌, ◌-◌, ◌≤ℤ◌, int_le, pos, nat_le, ◌&&◌};
ghost use Rattle.quartz_expr.specs.Intervals.{are_sound_bits, bits_interval, bound_breaks, interval, is_inside, is_small, is_sound_slice, is_sound_target, is_sound_two, kind_interval, one_interval, only, range_of, sound_or_nought, span, two_interval, type_interval};
ghost use Rattle.quartz_expr.specs.Value.{width_in};
ghost use Rattle.quartz_expr.specs.Kinds.{kind, place_if};
ghost use Rattle.quartz_tree.specs.Least.{least_place, lesser_place};
ghost use Rattle.quartz_tree.specs.Tree.{tree};
ghost use Rattle.quartz_types.specs.Laws.{HoldsItsValues};

use crate::range::{
    Bounds, Wide, bits, hull, is_small, nought, of_kind, of_one, of_two, power, small_or_nought,
};
use quartz_expr::{
    ExprKind, counted_width, kind_of_bits, kind_of_choice, kind_of_element, kind_of_name,
    kind_of_number, kind_of_one, kind_of_slice, kind_of_two, type_range,
};
use quartz_names::{lesser_place, place_if};
use quartz_tree::{Binary, Expr, Place, Ty, Unary, Var};

/// An interval, and whether the operator that has it keeps its bounds.
#[derive(Clone, Copy, Debug)]
struct Settled {
    bounds: Bounds,
    sound: bool,
}

// The number alone.
fn exactly(value: u128) -> Bounds
    requires { value ≤ 2 ^ 62 }
    ensures { span result.low result.high ≡ only (pos value) }
{
    Bounds {
        low: value as i64,
        high: value as i64,
    }
}

fn number(value: u128) -> Bounds
    ensures { span result.low result.high
        ≡ sound_or_nought (nat_le value (2 ^ 62)) (only (pos value)) }
{
    if value <= 1 << 62 {
        exactly(value)
    } else {
        nought()
    }
}

fn are_sound_bits(width: u32, value: u128) -> bool
    ensures { result ≡ are_sound_bits width value }
{
    1 <= width && (width <= 32 && value < power(width) as u128)
}

#[tactic(auto, using(crate::proofs::BoundLemmas::bits_below))]
fn literal_bits(width: u32, value: u128) -> Settled
    ensures sound { result.sound ≡ are_sound_bits width value }
    ensures bounds { span result.bounds.low result.bounds.high
        ≡ sound_or_nought (are_sound_bits width value) (only (pos value)) }
{
    if are_sound_bits(width, value) {
        Settled {
            bounds: exactly(value),
            sound: true,
        }
    } else {
        Settled {
            bounds: nought(),
            sound: false,
        }
    }
}

fn from_ends(low: i64, high: i64) -> Bounds
    requires { low ≤ℤ high }
    ensures { span result.low result.high ≡ span low high }
{
    Bounds { low, high }
}

// The values of an element of that type.
#[tactic(auto, using(crate::proofs::BoundLemmas::type_ordered))]
fn declared(ty: Ty) -> Bounds
    ensures { span result.low result.high ≡ type_interval ty }
{
    let range = type_range(ty);
    from_ends(range.low, range.high)
}

// The values of a variable's elements.
fn variable(vars: &[Var], var: u32) -> Bounds
    ensures { span result.low result.high ≡ range_of vars.now var }
{
    match vars.get(var as usize) {
        Some(var) => declared(var.decl.ty),
        None => nought(),
    }
}

fn width_in(kind: Option<ExprKind>) -> u32
    ensures { result ≡ width_in kind }
{
    match kind {
        Some(ExprKind::Vector(width)) => width,
        Some(ExprKind::Boolean) => 0,
        Some(ExprKind::Numeric) => 0,
        None => 0,
    }
}

fn judged(wide: Wide) -> Settled
    ensures sound { result.sound ≡ is_small (span wide.low wide.high) }
    ensures bounds { span result.bounds.low result.bounds.high
        ≡ sound_or_nought (is_small (span wide.low wide.high)) (span wide.low wide.high) }
{
    Settled {
        bounds: small_or_nought(wide),
        sound: is_small(wide),
    }
}

// The interval of a kind, where the test holds.
fn kind_or_nought(sound: bool, kind: Option<ExprKind>) -> Settled
    requires { width_in kind ≤ 33 }
    ensures sound { result.sound ≡ sound }
    ensures bounds { span result.bounds.low result.bounds.high
        ≡ sound_or_nought sound (kind_interval kind) }
{
    if sound {
        Settled {
            bounds: of_kind(kind),
            sound: true,
        }
    } else {
        Settled {
            bounds: nought(),
            sound: false,
        }
    }
}

fn settled_one(op: Unary, kind: Option<ExprKind>, a: Bounds) -> Settled
    requires { width_in kind ≤ 33 }
    ensures sound { result.sound ≡ is_small (one_interval op kind (span a.low a.high)) }
    ensures bounds { span result.bounds.low result.bounds.high ≡ sound_or_nought (is_small
        (one_interval op kind (span a.low a.high))) (one_interval op kind (span a.low a.high)) }
{
    judged(of_one(op, kind, a))
}

fn settled_two(op: Binary, kind: Option<ExprKind>, a: Bounds, b: Bounds) -> Settled
    requires { width_in kind ≤ 33 }
    ensures sound { result.sound ≡ is_sound_two op kind
        (two_interval op kind (span a.low a.high) (span b.low b.high)) }
    ensures bounds { span result.bounds.low result.bounds.high ≡ sound_or_nought
        (is_sound_two op kind (two_interval op kind (span a.low a.high) (span b.low b.high)))
        (two_interval op kind (span a.low a.high) (span b.low b.high)) }
{
    match op {
        Binary::Cat => kind_or_nought(width_in(kind) <= 32, kind),
        Binary::Add => judged(of_two(op, kind, a, b)),
        Binary::Sub => judged(of_two(op, kind, a, b)),
        Binary::Mul => judged(of_two(op, kind, a, b)),
        Binary::Div => judged(of_two(op, kind, a, b)),
        Binary::Rem => judged(of_two(op, kind, a, b)),
        Binary::Iff => judged(of_two(op, kind, a, b)),
        Binary::Implies => judged(of_two(op, kind, a, b)),
        Binary::Or => judged(of_two(op, kind, a, b)),
        Binary::Xor => judged(of_two(op, kind, a, b)),
        Binary::And => judged(of_two(op, kind, a, b)),
        Binary::Eq => judged(of_two(op, kind, a, b)),
        Binary::Ne => judged(of_two(op, kind, a, b)),
        Binary::Lt => judged(of_two(op, kind, a, b)),
        Binary::Le => judged(of_two(op, kind, a, b)),
        Binary::Gt => judged(of_two(op, kind, a, b)),
        Binary::Ge => judged(of_two(op, kind, a, b)),
    }
}

fn is_sound_slice(width: u32, high: u128, low: Option<u128>) -> bool
    ensures { result ≡ is_sound_slice width high low }
{
    match low {
        None => high < width as u128,
        Some(low) => high < width as u128 && low <= high,
    }
}

fn is_sound_target(width: u128) -> bool
    ensures { result ≡ is_sound_target width }
{
    1 <= width && width <= 32
}

// Whether a number lies below so many bits' end, which are more than it can have.
#[tactic(auto, using(crate::proofs::BoundLemmas::in_many_bits))]
fn is_in_many_bits(high: i64, width: u128) -> bool
    requires { 63 ≤ width }
    ensures { result ≡ int_le high (pos (2 ^ width - 1)) }
{
    let _ = (high, width);
    true
}

// Whether an interval lies in the numbers of so many bits.
fn is_inside_bits(a: Bounds, width: u128) -> bool
    ensures { result ≡ is_inside (span a.low a.high) (bits_interval width) }
{
    if width <= 62 {
        let all = bits(width as u32);
        all.low <= a.low && a.high <= all.high
    } else {
        0 <= a.low && is_in_many_bits(a.high, width)
    }
}

fn settled_bits(a: Bounds, width: u128) -> Settled
    ensures sound { result.sound ≡ is_inside (span a.low a.high) (bits_interval width) }
    ensures bounds { span result.bounds.low result.bounds.high
        ≡ sound_or_nought (is_sound_target width && is_inside (span a.low a.high)
        (bits_interval width)) (bits_interval width) }
{
    let sound = is_inside_bits(a, width);
    if is_sound_target(width) && sound {
        Settled {
            bounds: bits(width as u32),
            sound,
        }
    } else {
        Settled {
            bounds: nought(),
            sound,
        }
    }
}

/// The kind and the interval of an expression, and the least place at which it breaks a bound.
#[derive(Clone, Copy, Debug)]
struct Bounded {
    kind: Option<ExprKind>,
    bounds: Bounds,
    broken: Option<Place>,
}

fn in_bounds(kind: Option<ExprKind>, bounds: Bounds, broken: Option<Place>) -> Bounded
    ensures kind { result.kind ≡ kind }
    ensures bounds { span result.bounds.low result.bounds.high ≡ span bounds.low bounds.high }
    ensures broken { result.broken ≡ broken }
{
    Bounded {
        kind,
        bounds,
        broken,
    }
}

// A form with an interval of its own, behind the breaks of its parts.
fn behind(broken: Option<Place>, kind: Option<ExprKind>, own: Settled, place: Place) -> Bounded
    ensures kind { result.kind ≡ kind }
    ensures bounds { span result.bounds.low result.bounds.high
        ≡ span own.bounds.low own.bounds.high }
    ensures broken { result.broken ≡ lesser_place broken
        (least_place (place_if (not own.sound) place)) }
{
    Bounded {
        kind,
        bounds: own.bounds,
        broken: lesser_place(broken, place_if(!own.sound, place)),
    }
}

// Judges each part of an expression once.
#[tactic(auto, using(quartz_names::proofs::LeastLemmas::least_append, quartz_names::proofs::LeastLemmas::lesser_assoc, crate::proofs::WidthLemmas::kind_small))]
fn judge_bounds(e: &Expr<u32>, vars: &[Var]) -> Bounded
    ensures kind { result.kind ≡ kind vars.now (tree e.now) }
    ensures bounds { span result.bounds.low result.bounds.high ≡ interval vars.now (tree e.now) }
    ensures broken { result.broken ≡ least_place (bound_breaks vars.now (tree e.now)) }
{
    match e {
        Expr::Truth { value, .. } => in_bounds(
            Some(ExprKind::Boolean),
            from_ends(*value as i64, *value as i64),
            None,
        ),
        Expr::Number { value, place } => in_bounds(
            Some(ExprKind::Numeric),
            number(*value),
            place_if(!(*value <= 1 << 62), *place),
        ),
        Expr::Bits {
            width,
            value,
            place,
        } => behind(
            None,
            Some(ExprKind::Vector(counted_width(*width as u128))),
            literal_bits(*width, *value),
            *place,
        ),
        Expr::Named { var, .. } => in_bounds(kind_of_name(*var, vars), variable(vars, *var), None),
        Expr::Element { var, index, .. } => {
            let index = judge_bounds(index, vars);
            let kind = kind_of_element(*var, index.kind, vars);
            in_bounds(kind, variable(vars, *var), index.broken)
        }
        Expr::One { op, part, place } => {
            let part = judge_bounds(part, vars);
            let kind = kind_of_one(*op, part.kind);
            behind(
                part.broken,
                kind,
                settled_one(*op, kind, part.bounds),
                *place,
            )
        }
        Expr::Two {
            op,
            left,
            right,
            place,
        } => {
            let left = judge_bounds(left, vars);
            let right = judge_bounds(right, vars);
            let kind = kind_of_two(*op, left.kind, right.kind);
            let own = settled_two(*op, kind, left.bounds, right.bounds);
            behind(lesser_place(left.broken, right.broken), kind, own, *place)
        }
        Expr::Choice { cond, yes, no, .. } => {
            let cond = judge_bounds(cond, vars);
            let yes = judge_bounds(yes, vars);
            let no = judge_bounds(no, vars);
            in_bounds(
                kind_of_choice(cond.kind, yes.kind, no.kind),
                hull(yes.bounds, no.bounds),
                lesser_place(cond.broken, lesser_place(yes.broken, no.broken)),
            )
        }
        Expr::Slice {
            part,
            high,
            low,
            place,
        } => {
            let part = judge_bounds(part, vars);
            let kind = kind_of_slice(*high, *low, part.kind);
            let sound = is_sound_slice(width_in(part.kind), *high, *low);
            behind(part.broken, kind, kind_or_nought(sound, kind), *place)
        }
        Expr::ToNat { part, .. } => {
            let part = judge_bounds(part, vars);
            in_bounds(kind_of_number(part.kind), of_kind(part.kind), part.broken)
        }
        Expr::ToBv {
            part,
            width,
            width_place,
            place,
        } => {
            let part = judge_bounds(part, vars);
            let kind = kind_of_bits(part.kind, *width);
            let target = place_if(!is_sound_target(*width), *width_place);
            let own = settled_bits(part.bounds, *width);
            behind(lesser_place(part.broken, target), kind, own, *place)
        }
        Expr::Paren { part, .. } => judge_bounds(part, vars),
    }
}

/// The interval in which the values of an expression lie, from its least to its greatest number;
/// a part that breaks a bound counts as 0 alone for what stands above it.
pub fn interval(e: &Expr<u32>, vars: &[Var]) -> (i64, i64)
    ensures value { span result.0 result.1 ≡ interval vars.now (tree e.now) }
    ensures sound { HoldsItsValues vars.now (tree e.now) (span result.0 result.1) }
{
    let bounds = judge_bounds(e, vars).bounds;
    (bounds.low, bounds.high)
}

/// The least place at which an expression breaks a bound.
pub fn least_expr_bound_break(e: &Expr<u32>, vars: &[Var]) -> Option<Place>
    ensures { result ≡ least_place (bound_breaks vars.now (tree e.now)) }
{
    judge_bounds(e, vars).broken
}
