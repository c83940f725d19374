//! The faults of indices and divisors, and the order of faults.

ghost use Rattle.std.specs.Prelude.{◌≡◌};
ghost use Rattle.quartz_tree.specs.Least.{is_sooner, least_fault, lesser_fault, rank};
ghost use Rattle.quartz_expr.specs.Vars.{count_of};
ghost use Rattle.quartz_expr.specs.Faults.{divides, divisor_faults, index_faults, is_index_below};

use crate::kind::array_length;
use quartz_tree::{Binary, Fault, Kind, Place, Var};

fn rank_of(kind: Kind) -> u8
    ensures { result ≡ rank kind }
{
    match kind {
        Kind::Range => 0,
        Kind::Index => 1,
        Kind::Divisor => 2,
        Kind::Conflict => 3,
    }
}

fn is_before(f: Fault, g: Fault) -> bool
    ensures { result ≡ is_sooner f g }
{
    f.place.line < g.place.line
        || (f.place.line == g.place.line && f.place.col < g.place.col)
        || (f.place.line == g.place.line
            && f.place.col == g.place.col
            && rank_of(f.kind) < rank_of(g.kind))
}

/// The lesser of two faults by place, then by kind, and the first where neither is.
pub fn lesser_of(f: Option<Fault>, g: Option<Fault>) -> Option<Fault>
    ensures { result ≡ lesser_fault f g }
{
    match (f, g) {
        (None, g) => g,
        (Some(f), None) => Some(f),
        (Some(f), Some(g)) => if is_before(g, f) { Some(g) } else { Some(f) },
    }
}

fn count_of_elements(vars: &[Var], var: u32) -> u128
    ensures { result ≡ count_of vars.now var }
{
    array_length(vars, var).unwrap_or(1)
}

fn is_below(index: i64, count: u128) -> bool
    ensures { result ≡ is_index_below count index }
{
    index >= 0 && (index as u128) < count
}

/// An index that names no element of the variable.
pub(crate) fn index_fault(var: u32, index: i64, place: Place, vars: &[Var]) -> Option<Fault>
    ensures { result ≡ least_fault (index_faults vars.now var index place) }
{
    if is_below(index, count_of_elements(vars, var)) {
        None
    } else {
        Some(Fault {
            place,
            kind: Kind::Index,
        })
    }
}

fn is_division(op: Binary) -> bool
    ensures { result ≡ divides op }
{
    matches!(op, Binary::Div | Binary::Rem)
}

/// A divisor that is 0.
pub(crate) fn divisor_fault(op: Binary, divisor: i64, place: Place) -> Option<Fault>
    ensures { result ≡ least_fault (divisor_faults op divisor place) }
{
    if is_division(op) && divisor == 0 {
        Some(Fault {
            place,
            kind: Kind::Divisor,
        })
    } else {
        None
    }
}
