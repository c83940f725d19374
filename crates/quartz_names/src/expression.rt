//! Names in expressions: those that stand for nothing, and the numbers of the others.

ghost use Rattle.std.specs.Prelude.{◌≡◌, IfOk};
ghost use Rattle.quartz_tree.specs.Least.{least_place};
ghost use Rattle.quartz_tree.specs.Tree.{tree};
ghost use Rattle.quartz_names.specs.NameRules.{undeclared, undeclared_at};
ghost use Rattle.quartz_names.specs.Numbering.{renamed};
ghost use Rattle.quartz_names.specs.Scopes.{number_in};
ghost use Rattle.quartz_names.specs.Walks.{scope_of};

use crate::names::Names;
use crate::place::lesser_place;
use quartz_tree::{Expr, Name, NoMemory, Place};
use std::alloc::Global;

/// The place of the use, where the name stands for no variable.
pub(crate) fn undeclared_at(names: &Names, name: &Name, place: Place) -> Option<Place>
    ensures { result ≡ least_place (undeclared_at (scope_of names.now) name.now place) }
{
    match names.number(name) {
        Some(_) => None,
        None => Some(place),
    }
}

/// The least use of a name that stands for no variable.
#[tactic(auto, using(crate::proofs::LeastLemmas::least_append))]
pub(crate) fn least_undeclared(names: &Names, e: &Expr<Name>) -> Option<Place>
    ensures { result ≡ least_place (undeclared (scope_of names.now) (tree e.now)) }
{
    match e {
        Expr::Truth { .. } | Expr::Number { .. } | Expr::Bits { .. } => None,
        Expr::Named { var, place } => undeclared_at(names, var, *place),
        Expr::Element { var, index, place } => lesser_place(
            undeclared_at(names, var, *place),
            least_undeclared(names, index),
        ),
        Expr::Two { left, right, .. } => lesser_place(
            least_undeclared(names, left),
            least_undeclared(names, right),
        ),
        Expr::Choice { cond, yes, no, .. } => lesser_place(
            least_undeclared(names, cond),
            lesser_place(least_undeclared(names, yes), least_undeclared(names, no)),
        ),
        Expr::One { part, .. }
        | Expr::Slice { part, .. }
        | Expr::ToNat { part, .. }
        | Expr::ToBv { part, .. }
        | Expr::Paren { part, .. } => least_undeclared(names, part),
    }
}

/// The number for which a name stands, and 0 where it stands for none.
pub(crate) fn number_in(names: &Names, name: &Name) -> u32
    ensures { result ≡ number_in (scope_of names.now) name.now }
{
    names.number(name).unwrap_or(0)
}

/// The expression over the numbers of its variables.
pub(crate) fn renamed(alloc: Global, names: &Names, e: &Expr<Name>) -> Result<Expr<u32>, NoMemory>
    ensures { IfOk result (λ r. tree r ≡ renamed (scope_of names.now) (tree e.now)) }
{
    match e {
        Expr::Truth { value, place } => Ok(Expr::Truth {
            value: *value,
            place: *place,
        }),
        Expr::Number { value, place } => Ok(Expr::Number {
            value: *value,
            place: *place,
        }),
        Expr::Bits {
            width,
            value,
            place,
        } => Ok(Expr::Bits {
            width: *width,
            value: *value,
            place: *place,
        }),
        Expr::Named { var, place } => Ok(Expr::Named {
            var: number_in(names, var),
            place: *place,
        }),
        Expr::Element { var, index, place } => Ok(Expr::Element {
            var: number_in(names, var),
            index: Box::new(alloc, renamed(alloc, names, index)?)?,
            place: *place,
        }),
        Expr::One { op, part, place } => Ok(Expr::One {
            op: *op,
            part: Box::new(alloc, renamed(alloc, names, part)?)?,
            place: *place,
        }),
        Expr::Two {
            op,
            left,
            right,
            place,
        } => Ok(Expr::Two {
            op: *op,
            left: Box::new(alloc, renamed(alloc, names, left)?)?,
            right: Box::new(alloc, renamed(alloc, names, right)?)?,
            place: *place,
        }),
        Expr::Choice {
            cond,
            yes,
            no,
            place,
        } => Ok(Expr::Choice {
            cond: Box::new(alloc, renamed(alloc, names, cond)?)?,
            yes: Box::new(alloc, renamed(alloc, names, yes)?)?,
            no: Box::new(alloc, renamed(alloc, names, no)?)?,
            place: *place,
        }),
        Expr::Slice {
            part,
            high,
            low,
            place,
        } => Ok(Expr::Slice {
            part: Box::new(alloc, renamed(alloc, names, part)?)?,
            high: *high,
            low: *low,
            place: *place,
        }),
        Expr::ToNat { part, place } => Ok(Expr::ToNat {
            part: Box::new(alloc, renamed(alloc, names, part)?)?,
            place: *place,
        }),
        Expr::ToBv {
            part,
            width,
            width_place,
            place,
        } => Ok(Expr::ToBv {
            part: Box::new(alloc, renamed(alloc, names, part)?)?,
            width: *width,
            width_place: *width_place,
            place: *place,
        }),
        Expr::Paren { part, place } => Ok(Expr::Paren {
            part: Box::new(alloc, renamed(alloc, names, part)?)?,
            place: *place,
        }),
    }
}
