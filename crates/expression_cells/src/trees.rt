//! The tree of an expression.

ghost use Rattle.std.specs.Prelude.{◌≡◌, ◌<◌, ◌^◌, IfOk, map, true, unwrap_or};
ghost use Rattle.quartz_tree.specs.Tree.{tree as plain};
ghost use Rattle.quartz_expr.specs.Kinds.{choice_kind, kind, kind_with, one_kind, slice_kind, two_kind};
ghost use Rattle.quartz_expr.specs.Typed.{IsTyped};
ghost use Rattle.quartz_expr.specs.Value.{width_in};
ghost use Rattle.aif_cells.specs.Tree.{bits, cat, ite, one, sel, tree, trees, two, value};
ghost use Rattle.statement_cells.specs.Expressions.{bitwise_of, complement_of, element_ref, indexed, literal as plain_literal, one_of, refs_of, tree_of, two_of};
ghost use Rattle.expression_cells.specs.Literals.{fits};

use aif_cells::{Ref, Tree, TreeOne, TreeTwo, reference_in};
use quartz_expr::{
    ExprKind, counted_width, kind_of_bits, kind_of_choice, kind_of_element, kind_of_name,
    kind_of_number, kind_of_one, kind_of_slice, kind_of_two,
};
use quartz_tree::{Binary, Expr, NoMemory, Unary, Var};
use statement_cells::Current;
use std::alloc::Global;

/// The tree of a literal.
pub(crate) fn literal(value: i64) -> Tree
    ensures { tree result ≡ plain_literal value }
{
    Tree::Value(Ref::Lit(value))
}

/// An operator on one tree.
pub(crate) fn with_one(alloc: Global, op: TreeOne, part: Tree) -> Result<Tree, NoMemory>
    ensures { IfOk result (λ t. tree t ≡ one op (tree part)) }
{
    Ok(Tree::One(op, Box::new(alloc, part)?))
}

/// An operator on two trees.
pub(crate) fn with_two(
    alloc: Global,
    op: TreeTwo,
    left: Tree,
    right: Tree,
) -> Result<Tree, NoMemory>
    ensures { IfOk result (λ t. tree t ≡ two op (tree left) (tree right)) }
{
    let left = Box::new(alloc, left)?;
    let right = Box::new(alloc, right)?;
    Ok(Tree::Two(op, left, right))
}

// The references of a variable's elements in its current copy.
fn refs_of(copies: &[Current], var: u32) -> &[Ref]
    ensures { result.now ≡ refs_of copies.now var }
{
    match copies.get(var as usize) {
        Some(current) => current.values.as_slice(),
        None => &[],
    }
}

// The element with that number, or 0 where there is none.
fn element(refs: &[Ref], index: i64) -> Ref
    ensures { result ≡ element_ref refs.now index }
{
    if index < 0 {
        return Ref::Lit(0);
    }
    refs.get(index as usize).copied().unwrap_or(Ref::Lit(0))
}

// The trees of references.
fn values(alloc: Global, refs: &[Ref]) -> Result<Vec<Tree>, NoMemory>
    ensures { IfOk result (λ v. map tree v.items ≡ map value refs.now) }
{
    let mut trees = Vec::new(alloc);
    for reference in refs {
        trees.push(Tree::Value(*reference))?;
    }
    Ok(trees)
}

// A choice among the elements by an index that is no literal.
fn select(alloc: Global, refs: &[Ref], index: Tree) -> Result<Tree, NoMemory>
    ensures { IfOk result (λ t. tree t ≡ sel (tree index) (trees (map value refs.now))) }
{
    let elements = values(alloc, refs)?;
    let index = Box::new(alloc, index)?;
    Ok(Tree::Sel(index, elements))
}

// The element with a literal index, or one that is selected.
fn at_index(alloc: Global, refs: &[Ref], index: Tree) -> Result<Tree, NoMemory>
    ensures { IfOk result (λ t. tree t ≡ indexed refs.now (tree index)) }
{
    match reference_in(&index) {
        Some(Ref::Lit(at)) => Ok(Tree::Value(element(refs, at))),
        _ => select(alloc, refs, index),
    }
}

// `!` of a truth value, or of bits.
fn complement(alloc: Global, kind: Option<ExprKind>, part: Tree) -> Result<Tree, NoMemory>
    ensures { IfOk result (λ t. tree t ≡ complement_of kind (tree part)) }
{
    match kind {
        Some(ExprKind::Vector(width)) => Ok(Tree::Bnot(Box::new(alloc, part)?, width)),
        Some(ExprKind::Boolean) => with_one(alloc, TreeOne::Not, part),
        Some(ExprKind::Numeric) => with_one(alloc, TreeOne::Not, part),
        None => with_one(alloc, TreeOne::Not, part),
    }
}

fn apply_unary(
    alloc: Global,
    op: Unary,
    kind: Option<ExprKind>,
    part: Tree,
) -> Result<Tree, NoMemory>
    ensures { IfOk result (λ t. tree t ≡ one_of op kind (tree part)) }
{
    match op {
        Unary::Not => complement(alloc, kind, part),
        Unary::Neg => with_one(alloc, TreeOne::Neg, part),
    }
}

// An operator on truth values, or the one on bits.
fn bitwise(
    alloc: Global,
    kind: Option<ExprKind>,
    on_truth: TreeTwo,
    on_bits: TreeTwo,
    left: Tree,
    right: Tree,
) -> Result<Tree, NoMemory>
    ensures { IfOk result
        (λ t. tree t ≡ bitwise_of kind on_truth on_bits (tree left) (tree right)) }
{
    match kind {
        Some(ExprKind::Vector(_)) => with_two(alloc, on_bits, left, right),
        Some(ExprKind::Boolean) => with_two(alloc, on_truth, left, right),
        Some(ExprKind::Numeric) => with_two(alloc, on_truth, left, right),
        None => with_two(alloc, on_truth, left, right),
    }
}

fn implication(alloc: Global, left: Tree, right: Tree) -> Result<Tree, NoMemory>
    ensures { IfOk result
        (λ t. tree t ≡ two TreeTwo.Or (one TreeOne.Not (tree left)) (tree right)) }
{
    let not = with_one(alloc, TreeOne::Not, left)?;
    with_two(alloc, TreeTwo::Or, not, right)
}

fn width_in(kind: Option<ExprKind>) -> u32
    ensures { result ≡ width_in kind }
{
    match kind {
        Some(ExprKind::Vector(width)) => width,
        Some(ExprKind::Boolean) => 0,
        Some(ExprKind::Numeric) => 0,
        None => 0,
    }
}

fn concatenation(alloc: Global, width: u32, left: Tree, right: Tree) -> Result<Tree, NoMemory>
    ensures { IfOk result (λ t. tree t ≡ cat (tree left) (tree right) width) }
{
    let left = Box::new(alloc, left)?;
    let right = Box::new(alloc, right)?;
    Ok(Tree::Cat(left, right, width))
}

// An operator on two trees, the right one of that kind.
fn apply_binary(
    alloc: Global,
    op: Binary,
    kind: Option<ExprKind>,
    left: Tree,
    right: Tree,
) -> Result<Tree, NoMemory>
    ensures { IfOk result (λ t. tree t ≡ two_of op kind (tree left) (tree right)) }
{
    match op {
        Binary::Iff => with_two(alloc, TreeTwo::Eq, left, right),
        Binary::Implies => implication(alloc, left, right),
        Binary::Or => bitwise(alloc, kind, TreeTwo::Or, TreeTwo::Bor, left, right),
        Binary::Xor => bitwise(alloc, kind, TreeTwo::Xor, TreeTwo::Bxor, left, right),
        Binary::And => bitwise(alloc, kind, TreeTwo::And, TreeTwo::Band, left, right),
        Binary::Eq => with_two(alloc, TreeTwo::Eq, left, right),
        Binary::Ne => with_two(alloc, TreeTwo::Ne, left, right),
        Binary::Lt => with_two(alloc, TreeTwo::Lt, left, right),
        Binary::Le => with_two(alloc, TreeTwo::Le, left, right),
        Binary::Gt => with_two(alloc, TreeTwo::Gt, left, right),
        Binary::Ge => with_two(alloc, TreeTwo::Ge, left, right),
        Binary::Cat => concatenation(alloc, width_in(kind), left, right),
        Binary::Add => with_two(alloc, TreeTwo::Add, left, right),
        Binary::Sub => with_two(alloc, TreeTwo::Sub, left, right),
        Binary::Mul => with_two(alloc, TreeTwo::Mul, left, right),
        Binary::Div => with_two(alloc, TreeTwo::Div, left, right),
        Binary::Rem => with_two(alloc, TreeTwo::Rem, left, right),
    }
}

/// The tree of an expression, and its kind.
#[derive(Debug, Drop)]
struct Built {
    tree: Tree,
    kind: Option<ExprKind>,
}

fn of_kind(tree: Tree, kind: Option<ExprKind>) -> Built
    ensures tree { result.tree ≡ tree }
    ensures kind { result.kind ≡ kind }
{
    Built { tree, kind }
}

fn build_element(
    alloc: Global,
    refs: &[Ref],
    index: Tree,
    kind: Option<ExprKind>,
) -> Result<Built, NoMemory>
    ensures tree { IfOk result (λ b. tree b.tree ≡ indexed refs.now (tree index)) }
    ensures kind { IfOk result (λ b. b.kind ≡ kind) }
{
    Ok(of_kind(at_index(alloc, refs, index)?, kind))
}

fn build_one(alloc: Global, op: Unary, part: Built) -> Result<Built, NoMemory>
    ensures tree { IfOk result (λ b. tree b.tree ≡ one_of op part.kind (tree part.tree)) }
    ensures kind { IfOk result (λ b. b.kind ≡ kind_with part.kind (one_kind op)) }
{
    let kind = kind_of_one(op, part.kind);
    Ok(of_kind(apply_unary(alloc, op, part.kind, part.tree)?, kind))
}

fn build_two(alloc: Global, op: Binary, left: Built, right: Built) -> Result<Built, NoMemory>
    ensures tree { IfOk result
        (λ b. tree b.tree ≡ two_of op right.kind (tree left.tree) (tree right.tree)) }
    ensures kind { IfOk result
        (λ b. b.kind ≡ kind_with left.kind (λ k. kind_with right.kind (two_kind op k))) }
{
    let kind = kind_of_two(op, left.kind, right.kind);
    Ok(of_kind(
        apply_binary(alloc, op, right.kind, left.tree, right.tree)?,
        kind,
    ))
}

fn build_choice(alloc: Global, cond: Built, yes: Built, no: Built) -> Result<Built, NoMemory>
    ensures tree { IfOk result
        (λ b. tree b.tree ≡ ite (tree cond.tree) (tree yes.tree) (tree no.tree)) }
    ensures kind { IfOk result
        (λ b. b.kind ≡ kind_with cond.kind
        (λ l. kind_with yes.kind (λ k. kind_with no.kind (choice_kind l k)))) }
{
    let kind = kind_of_choice(cond.kind, yes.kind, no.kind);
    let cond = Box::new(alloc, cond.tree)?;
    let yes = Box::new(alloc, yes.tree)?;
    let no = Box::new(alloc, no.tree)?;
    Ok(of_kind(Tree::Ite(cond, yes, no), kind))
}

fn build_slice(alloc: Global, part: Built, high: u128, low: Option<u128>) -> Result<Built, NoMemory>
    requires high { high < 2 ^ 32 }
    requires low { unwrap_or low high < 2 ^ 32 }
    ensures tree { IfOk result
        (λ b. tree b.tree ≡ bits (tree part.tree) high (unwrap_or low high)) }
    ensures kind { IfOk result (λ b. b.kind ≡ kind_with part.kind (slice_kind high low)) }
{
    let kind = kind_of_slice(high, low, part.kind);
    let lowest = low.unwrap_or(high);
    let part = Box::new(alloc, part.tree)?;
    Ok(of_kind(Tree::Bits(part, high as u32, lowest as u32), kind))
}

// Builds each part of an expression once.
fn build(alloc: Global, vars: &[Var], copies: &[Current], e: &Expr<u32>) -> Result<Built, NoMemory>
    requires { fits (plain e.now) ≡ true }
    ensures tree { IfOk result (λ b. tree b.tree ≡ tree_of vars.now copies.now (plain e.now)) }
    ensures kind { IfOk result (λ b. b.kind ≡ kind vars.now (plain e.now)) }
{
    match e {
        Expr::Truth { value, .. } => {
            Ok(of_kind(literal(*value as i64), Some(ExprKind::Boolean)))
        }
        Expr::Number { value, .. } => {
            Ok(of_kind(literal(*value as i64), Some(ExprKind::Numeric)))
        }
        Expr::Bits { width, value, .. } => {
            let kind = ExprKind::Vector(counted_width(*width as u128));
            Ok(of_kind(literal(*value as i64), Some(kind)))
        }
        Expr::Named { var, .. } => {
            let reference = element(refs_of(copies, *var), 0);
            Ok(of_kind(Tree::Value(reference), kind_of_name(*var, vars)))
        }
        Expr::Element { var, index, .. } => {
            let index = build(alloc, vars, copies, index)?;
            let kind = kind_of_element(*var, index.kind, vars);
            build_element(alloc, refs_of(copies, *var), index.tree, kind)
        }
        Expr::One { op, part, .. } => {
            let part = build(alloc, vars, copies, part)?;
            build_one(alloc, *op, part)
        }
        Expr::Two {
            op,
            left,
            right,
            ..
        } => {
            let left = build(alloc, vars, copies, left)?;
            let right = build(alloc, vars, copies, right)?;
            build_two(alloc, *op, left, right)
        }
        Expr::Choice { cond, yes, no, .. } => {
            let cond = build(alloc, vars, copies, cond)?;
            let yes = build(alloc, vars, copies, yes)?;
            let no = build(alloc, vars, copies, no)?;
            build_choice(alloc, cond, yes, no)
        }
        Expr::Slice {
            part,
            high,
            low,
            ..
        } => {
            let part = build(alloc, vars, copies, part)?;
            build_slice(alloc, part, *high, *low)
        }
        Expr::ToNat { part, .. } => {
            let part = build(alloc, vars, copies, part)?;
            let kind = kind_of_number(part.kind);
            Ok(of_kind(part.tree, kind))
        }
        Expr::ToBv { part, width, .. } => {
            let part = build(alloc, vars, copies, part)?;
            let kind = kind_of_bits(part.kind, *width);
            Ok(of_kind(part.tree, kind))
        }
        Expr::Paren { part, .. } => build(alloc, vars, copies, part),
    }
}

/// The tree of an expression whose numbers fit those of trees.
pub(crate) fn fitting_tree(
    alloc: Global,
    vars: &[Var],
    copies: &[Current],
    e: &Expr<u32>,
) -> Result<Tree, NoMemory>
    requires { fits (plain e.now) ≡ true }
    ensures { IfOk result (λ t. tree t ≡ tree_of vars.now copies.now (plain e.now)) }
{
    Ok(build(alloc, vars, copies, e)?.tree)
}

/// The tree of an expression over the current copies of the variables.
#[tactic(auto, using(crate::proofs::LiteralLemmas::fits_typed))]
pub fn tree_of(
    alloc: Global,
    vars: &[Var],
    copies: &[Current],
    e: &Expr<u32>,
) -> Result<Tree, NoMemory>
    requires { IsTyped vars.now (plain e.now) }
    ensures { IfOk result (λ t. tree t ≡ tree_of vars.now copies.now (plain e.now)) }
{
    fitting_tree(alloc, vars, copies, e)
}
