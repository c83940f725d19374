//! The kinds of expressions.

ghost use Rattle.std.specs.Prelude.{◌≡◌, ◌&&◌, not};
ghost use Rattle.quartz_tree.specs.Tree.{tree};
ghost use Rattle.quartz_tree.specs.declared.expr.Binary.TheVariants.{Cat};
ghost use Rattle.quartz_expr.specs.Vars.{base_of, is_array, length_of};
ghost use Rattle.quartz_expr.specs.Kinds.{choice_kind, counted, is_boolean, is_numeric, is_vector, kind, kind_if, kind_of_base, kind_with, numeric, vector, one_kind, same_kind, slice_kind, slice_width, two_kind};

use quartz_tree::{Base, Binary, Expr, Unary, Var};

/// What the values of an expression are.
#[derive(Clone, Copy, Debug, PartialEq, Eq)]
pub enum ExprKind {
    /// 0 or 1.
    Boolean,
    Numeric,
    /// So many bits; 33 stands for every width outside 1 to 32.
    Vector(u32),
}

/// The width, or 33 outside 1 to 32.
pub fn counted_width(width: u128) -> u32
    ensures { result ≡ counted width }
{
    if 1 <= width && width <= 32 {
        width as u32
    } else {
        33
    }
}

fn kind_of_type(base: Base) -> ExprKind
    ensures { result ≡ kind_of_base base }
{
    match base {
        Base::Bool => ExprKind::Boolean,
        Base::Nat(_) | Base::Int(_) => ExprKind::Numeric,
        Base::Bv(width) => ExprKind::Vector(counted_width(width)),
    }
}

/// The scalar type of a variable's elements, and Bool where there is no such variable.
pub(crate) fn base_type(vars: &[Var], var: u32) -> Base
    ensures { result ≡ base_of vars.now var }
{
    match vars.get(var as usize) {
        Some(var) => var.decl.ty.base,
        None => Base::Bool,
    }
}

/// The length of an array, and nothing for a scalar.
pub(crate) fn array_length(vars: &[Var], var: u32) -> Option<u128>
    ensures { result ≡ length_of vars.now var }
{
    match vars.get(var as usize) {
        Some(var) => var.decl.ty.len,
        None => None,
    }
}

fn is_same_kind(a: ExprKind, b: ExprKind) -> bool
    ensures { result ≡ same_kind a b }
{
    match (a, b) {
        (ExprKind::Boolean, ExprKind::Boolean) => true,
        (ExprKind::Numeric, ExprKind::Numeric) => true,
        (ExprKind::Vector(m), ExprKind::Vector(n)) => m == n,
        _ => false,
    }
}

fn is_numeric(kind: ExprKind) -> bool
    ensures { result ≡ is_numeric kind }
{
    matches!(kind, ExprKind::Numeric)
}

fn is_boolean(kind: ExprKind) -> bool
    ensures { result ≡ is_boolean kind }
{
    matches!(kind, ExprKind::Boolean)
}

fn is_vector(kind: ExprKind) -> bool
    ensures { result ≡ is_vector kind }
{
    matches!(kind, ExprKind::Vector(_))
}

// The kind, where the parts have it.
fn kind_if(parts_have: bool, kind: ExprKind) -> Option<ExprKind>
    ensures { result ≡ kind_if parts_have kind }
{
    if parts_have { Some(kind) } else { None }
}

pub fn kind_of_one(op: Unary, part: Option<ExprKind>) -> Option<ExprKind>
    ensures { result ≡ kind_with part (one_kind op) }
{
    match (op, part?) {
        (Unary::Not, ExprKind::Boolean | ExprKind::Vector(_)) => part,
        (Unary::Neg, ExprKind::Numeric) => part,
        _ => None,
    }
}

pub fn kind_of_two(op: Binary, left: Option<ExprKind>, right: Option<ExprKind>) -> Option<ExprKind>
    ensures { result ≡ kind_with left (λ k. kind_with right (two_kind op k)) }
{
    kind_between(op, left?, right?)
}

fn kind_between(op: Binary, left: ExprKind, right: ExprKind) -> Option<ExprKind>
    ensures { result ≡ two_kind op left right }
{
    match op {
        Binary::Iff | Binary::Implies => {
            kind_if(is_boolean(left) && is_boolean(right), ExprKind::Boolean)
        }
        Binary::Or | Binary::Xor | Binary::And => {
            kind_if(is_same_kind(left, right) && !is_numeric(left), left)
        }
        Binary::Eq | Binary::Ne => kind_if(is_same_kind(left, right), ExprKind::Boolean),
        Binary::Lt | Binary::Le | Binary::Gt | Binary::Ge => {
            kind_if(is_numeric(left) && is_numeric(right), ExprKind::Boolean)
        }
        Binary::Cat => kind_of_cat(left, right),
        Binary::Add | Binary::Sub | Binary::Mul | Binary::Div | Binary::Rem => {
            kind_if(is_numeric(left) && is_numeric(right), ExprKind::Numeric)
        }
    }
}

fn kind_of_cat(left: ExprKind, right: ExprKind) -> Option<ExprKind>
    ensures { result ≡ two_kind Cat left right }
{
    match (left, right) {
        (ExprKind::Vector(m), ExprKind::Vector(n)) => {
            Some(ExprKind::Vector(counted_width(m as u128 + n as u128)))
        }
        _ => None,
    }
}

pub fn kind_of_choice(
    cond: Option<ExprKind>,
    yes: Option<ExprKind>,
    no: Option<ExprKind>,
) -> Option<ExprKind>
    ensures { result ≡ kind_with cond (λ l. kind_with yes (λ k. kind_with no (choice_kind l k))) }
{
    kind_if(is_boolean(cond?) && is_same_kind(yes?, no?), yes?)
}

pub fn kind_of_slice(high: u128, low: Option<u128>, part: Option<ExprKind>) -> Option<ExprKind>
    ensures { result ≡ kind_with part (slice_kind high low) }
{
    let has_bits = is_vector(part?);
    match low {
        None => kind_if(has_bits, ExprKind::Boolean),
        Some(low) => kind_if(has_bits, ExprKind::Vector(width_of_slice(high, low))),
    }
}

fn width_of_slice(high: u128, low: u128) -> u32
    ensures { result ≡ slice_width high low }
{
    if high < low || high - low >= 32 {
        33
    } else {
        counted_width(high - low + 1)
    }
}

/// The kind of `x`.
pub fn kind_of_name(var: u32, vars: &[Var]) -> Option<ExprKind>
    ensures { result ≡ kind_if (not (is_array vars.now var)) (kind_of_base (base_of vars.now var)) }
{
    kind_if(
        array_length(vars, var).is_none(),
        kind_of_type(base_type(vars, var)),
    )
}

/// The kind of `x[i]`.
pub fn kind_of_element(var: u32, index: Option<ExprKind>, vars: &[Var]) -> Option<ExprKind>
    ensures { result ≡ kind_with index (λ k.
        kind_if (is_array vars.now var && is_numeric k) (kind_of_base (base_of vars.now var))) }
{
    kind_if(
        array_length(vars, var).is_some() && is_numeric(index?),
        kind_of_type(base_type(vars, var)),
    )
}

/// The kind of `bv2nat(part)`.
pub fn kind_of_number(part: Option<ExprKind>) -> Option<ExprKind>
    ensures { result ≡ kind_with part (λ k. kind_if (is_vector k) numeric) }
{
    kind_if(is_vector(part?), ExprKind::Numeric)
}

/// The kind of `nat2bv(part, width)`.
pub fn kind_of_bits(part: Option<ExprKind>, width: u128) -> Option<ExprKind>
    ensures { result ≡ kind_with part (λ k. kind_if (is_numeric k) (vector (counted width))) }
{
    kind_if(is_numeric(part?), ExprKind::Vector(counted_width(width)))
}

/// The kind of an expression, and None where it has none.
pub fn kind_of(e: &Expr<u32>, vars: &[Var]) -> Option<ExprKind>
    ensures { result ≡ kind vars.now (tree e.now) }
{
    match e {
        Expr::Truth { .. } => Some(ExprKind::Boolean),
        Expr::Number { .. } => Some(ExprKind::Numeric),
        Expr::Bits { width, .. } => Some(ExprKind::Vector(counted_width(*width as u128))),
        Expr::Named { var, .. } => kind_of_name(*var, vars),
        Expr::Element { var, index, .. } => kind_of_element(*var, kind_of(index, vars), vars),
        Expr::One { op, part, .. } => kind_of_one(*op, kind_of(part, vars)),
        Expr::Two {
            op,
            left,
            right,
            ..
        } => { kind_of_two(*op, kind_of(left, vars), kind_of(right, vars)) }
        Expr::Choice { cond, yes, no, .. } => {
            kind_of_choice(kind_of(cond, vars), kind_of(yes, vars), kind_of(no, vars))
        }
        Expr::Slice {
            part,
            high,
            low,
            ..
        } => kind_of_slice(*high, *low, kind_of(part, vars)),
        Expr::ToNat { part, .. } => kind_of_number(kind_of(part, vars)),
        Expr::ToBv { part, width, .. } => kind_of_bits(kind_of(part, vars), *width),
        Expr::Paren { part, .. } => kind_of(part, vars),
    }
}
