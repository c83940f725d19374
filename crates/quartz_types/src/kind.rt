//! The rule of kinds.

ghost use Rattle.std.specs.Prelude.{◌≡◌, ◌&&◌, is_none, is_some, map, option_map, None, Some};
ghost use Rattle.quartz_expr.specs.Kinds.{is_index, kind, kind_breaks, place_if};
ghost use Rattle.quartz_expr.specs.Vars.{is_array};
ghost use Rattle.quartz_tree.specs.Kernel.{kernel, kernels};
ghost use Rattle.quartz_tree.specs.Least.{least_place, lesser_place};
ghost use Rattle.quartz_tree.specs.Tree.{tree};
ghost use Rattle.quartz_types.specs.Rules.{condition_kind_breaks, constant_kind_breaks, differ, init_kind_breaks, is_condition, stmt_kind_breaks, stmts_kind_breaks, target_kind, target_kind_breaks, write_kind_breaks};

use quartz_expr::{
    ExprKind, counted_width, kind_of_bits, kind_of_choice, kind_of_element, kind_of_name,
    kind_of_number, kind_of_one, kind_of_slice, kind_of_two,
};
use quartz_names::{has_kind_of, lesser_place, place_if, unscoped};
use quartz_tree::{Expr, Init, Place, Stmt, Ty, Var};

fn is_array(vars: &[Var], var: u32) -> bool
    ensures { result ≡ is_array vars.now var }
{
    match vars.get(var as usize) {
        Some(var) => var.decl.ty.len.is_some(),
        None => false,
    }
}

fn is_index(kind: Option<ExprKind>) -> bool
    ensures { result ≡ is_index kind }
{
    match kind {
        None => true,
        Some(ExprKind::Numeric) => true,
        Some(_) => false,
    }
}

fn is_condition(kind: Option<ExprKind>) -> bool
    ensures { result ≡ is_condition kind }
{
    match kind {
        None => true,
        Some(ExprKind::Boolean) => true,
        Some(_) => false,
    }
}

fn differ(a: Option<ExprKind>, b: Option<ExprKind>) -> bool
    ensures { result ≡ differ a b }
{
    match (a, b) {
        (None, _) => false,
        (Some(_), None) => false,
        (Some(ExprKind::Boolean), Some(ExprKind::Boolean)) => false,
        (Some(ExprKind::Numeric), Some(ExprKind::Numeric)) => false,
        (Some(ExprKind::Vector(m)), Some(ExprKind::Vector(n))) => m != n,
        (Some(_), Some(_)) => true,
    }
}

/// The kind of an expression, and the least place at which it breaks the rule of kinds.
#[derive(Clone, Copy, Debug)]
struct Kinded {
    kind: Option<ExprKind>,
    broken: Option<Place>,
}

fn sound(kind: ExprKind) -> Kinded
    ensures kind { result.kind ≡ Some kind }
    ensures broken { result.broken ≡ None }
{
    Kinded {
        kind: Some(kind),
        broken: None,
    }
}

// A form of one part: it breaks the rule where the part has a kind and the whole has none.
fn formed(part: Kinded, kind: Option<ExprKind>, place: Place) -> Kinded
    ensures kind { result.kind ≡ kind }
    ensures broken { result.broken ≡ lesser_place part.broken
        (least_place (place_if (is_some part.kind && is_none kind) place)) }
{
    let own = part.kind.is_some() && kind.is_none();
    Kinded {
        kind,
        broken: lesser_place(part.broken, place_if(own, place)),
    }
}

// Judges each part of an expression once.
#[tactic(auto, using(quartz_names::proofs::LeastLemmas::least_append))]
fn judge_kinds(e: &Expr<u32>, vars: &[Var]) -> Kinded
    ensures kind { result.kind ≡ kind vars.now (tree e.now) }
    ensures broken { result.broken ≡ least_place (kind_breaks vars.now (tree e.now)) }
{
    match e {
        Expr::Truth { .. } => sound(ExprKind::Boolean),
        Expr::Number { .. } => sound(ExprKind::Numeric),
        Expr::Bits { width, .. } => sound(ExprKind::Vector(counted_width(*width as u128))),
        Expr::Named { var, place } => Kinded {
            kind: kind_of_name(*var, vars),
            broken: place_if(is_array(vars, *var), *place),
        },
        Expr::Element { var, index, place } => {
            let index = judge_kinds(index, vars);
            let own = !(is_array(vars, *var) && is_index(index.kind));
            Kinded {
                kind: kind_of_element(*var, index.kind, vars),
                broken: lesser_place(place_if(own, *place), index.broken),
            }
        }
        Expr::One { op, part, place } => {
            let part = judge_kinds(part, vars);
            formed(part, kind_of_one(*op, part.kind), *place)
        }
        Expr::Two {
            op,
            left,
            right,
            place,
        } => {
            let left = judge_kinds(left, vars);
            let right = judge_kinds(right, vars);
            let kind = kind_of_two(*op, left.kind, right.kind);
            let own = left.kind.is_some() && (right.kind.is_some() && kind.is_none());
            let parts = lesser_place(right.broken, place_if(own, *place));
            Kinded {
                kind,
                broken: lesser_place(left.broken, parts),
            }
        }
        Expr::Choice {
            cond,
            yes,
            no,
            place,
        } => {
            let cond = judge_kinds(cond, vars);
            let yes = judge_kinds(yes, vars);
            let no = judge_kinds(no, vars);
            let kind = kind_of_choice(cond.kind, yes.kind, no.kind);
            let own = cond.kind.is_some()
                && (yes.kind.is_some() && (no.kind.is_some() && kind.is_none()));
            let last = lesser_place(no.broken, place_if(own, *place));
            let sides = lesser_place(yes.broken, last);
            Kinded {
                kind,
                broken: lesser_place(cond.broken, sides),
            }
        }
        Expr::Slice {
            part,
            high,
            low,
            place,
        } => {
            let part = judge_kinds(part, vars);
            formed(part, kind_of_slice(*high, *low, part.kind), *place)
        }
        Expr::ToNat { part, place } => {
            let part = judge_kinds(part, vars);
            formed(part, kind_of_number(part.kind), *place)
        }
        Expr::ToBv {
            part,
            width,
            place,
            ..
        } => {
            let part = judge_kinds(part, vars);
            formed(part, kind_of_bits(part.kind, *width), *place)
        }
        Expr::Paren { part, .. } => judge_kinds(part, vars),
    }
}

/// The least place at which an expression breaks the rule of kinds.
pub fn least_expr_break(e: &Expr<u32>, vars: &[Var]) -> Option<Place>
    ensures { result ≡ least_place (kind_breaks vars.now (tree e.now)) }
{
    judge_kinds(e, vars).broken
}

/// The least place at which a condition breaks the rule of kinds.
#[tactic(auto, using(quartz_names::proofs::LeastLemmas::least_append))]
pub fn least_condition_break(cond: &Expr<u32>, vars: &[Var]) -> Option<Place>
    ensures { result ≡ least_place (condition_kind_breaks vars.now (tree cond.now)) }
{
    let judged = judge_kinds(cond, vars);
    let own = !is_condition(judged.kind);
    lesser_place(judged.broken, place_if(own, cond.place()))
}

// The least place at which the constant of a declaration has another kind than its type.
fn least_init_break(ty: Ty, init: Option<Init>) -> Option<Place>
    ensures { result ≡ least_place (init_kind_breaks ty init) }
{
    match init {
        None => None,
        Some(init) => place_if(!has_kind_of(ty, init.value), init.place),
    }
}

/// The least place at which a constant has another kind than its variable's elements.
#[tactic(auto, using(quartz_names::proofs::LeastLemmas::least_append, quartz_names::proofs::LeastLemmas::lesser_assoc))]
pub fn least_constant_break(vars: &[Var]) -> Option<Place>
    ensures { result ≡ least_place (constant_kind_breaks vars.now) }
{
    let mut least = None;
    for var in vars {
        least = lesser_place(least, least_init_break(var.decl.ty, var.decl.init));
    }
    least
}

// The kind of what a write writes, and the least place at which its target breaks the rule.
#[tactic(auto, using(quartz_names::proofs::LeastLemmas::least_append))]
fn judge_target(vars: &[Var], var: u32, index: &Option<Expr<u32>>, place: Place) -> Kinded
    ensures kind { result.kind ≡ target_kind vars.now var (option_map tree index.now) place }
    ensures broken { result.broken
        ≡ least_place (target_kind_breaks vars.now var (option_map tree index.now) place) }
{
    match index {
        None => Kinded {
            kind: kind_of_name(var, vars),
            broken: place_if(is_array(vars, var), place),
        },
        Some(index) => {
            let judged = judge_kinds(index, vars);
            let own = place_if(!is_index(judged.kind), index.place());
            let inside = lesser_place(judged.broken, own);
            Kinded {
                kind: kind_of_element(var, judged.kind, vars),
                broken: lesser_place(place_if(!is_array(vars, var), place), inside),
            }
        }
    }
}

#[tactic(auto, using(quartz_names::proofs::LeastLemmas::least_append))]
fn least_write_break(
    vars: &[Var],
    var: u32,
    index: &Option<Expr<u32>>,
    value: &Expr<u32>,
    place: Place,
    target_place: Place,
) -> Option<Place>
    ensures { result ≡ least_place (write_kind_breaks vars.now var
        (option_map tree index.now) (tree value.now) place target_place) }
{
    let target = judge_target(vars, var, index, target_place);
    let value = judge_kinds(value, vars);
    let other = differ(target.kind, value.kind);
    let written = lesser_place(value.broken, place_if(other, place));
    lesser_place(target.broken, written)
}

/// The least place at which a statement breaks the rule of kinds.
#[cycle(kinds)]
#[tactic(auto, using(crate::proofs::UnscopedLemmas::kinds_unscoped))]
pub fn least_kind_break(stmt: &Stmt, vars: &[Var]) -> Option<Place>
    ensures { result ≡ least_place (stmt_kind_breaks vars.now (kernel stmt.now)) }
{
    least_inside(unscoped(stmt), vars)
}

// The least place at which a statement without the scopes around it breaks the rule of kinds.
#[cycle(kinds)]
#[tactic(auto, using(quartz_names::proofs::LeastLemmas::least_append))]
fn least_inside(stmt: &Stmt, vars: &[Var]) -> Option<Place>
    ensures { result ≡ least_place (stmt_kind_breaks vars.now (kernel stmt.now)) }
{
    match stmt {
        Stmt::Nothing => None,
        Stmt::Pause => None,
        Stmt::Write {
            var,
            index,
            value,
            place,
            target_place,
            ..
        } => least_write_break(vars, *var, index, value, *place, *target_place),
        Stmt::Choose { cond, yes, no } => {
            let cond = least_condition_break(cond, vars);
            let yes = least_kind_break(yes, vars);
            let no = least_kind_break(no, vars);
            lesser_place(cond, lesser_place(yes, no))
        }
        Stmt::Seq(parts) => least_in_parts(parts, vars),
        Stmt::Par(parts) => least_in_parts(parts, vars),
        Stmt::Loop { body, cond, .. } => {
            let body = least_kind_break(body, vars);
            lesser_place(body, least_condition_break(cond, vars))
        }
        Stmt::Guard { body, cond, .. } => {
            let body = least_kind_break(body, vars);
            lesser_place(body, least_condition_break(cond, vars))
        }
        Stmt::Local { body, .. } => least_kind_break(body, vars),
    }
}

#[cycle(kinds)]
fn least_in_parts(stmts: &[Stmt], vars: &[Var]) -> Option<Place>
    ensures { result ≡ least_place (stmts_kind_breaks vars.now (kernels (map kernel stmts.now))) }
{
    let mut least = None;
    for stmt in stmts {
        least = lesser_place(least, least_kind_break(stmt, vars));
    }
    least
}
