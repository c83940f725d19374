//! The tests of an expression's faults: of indexes and of divisors.

ghost use Rattle.std.specs.Prelude.{◌≡◌, ◌&&◌, ◌++◌, ◌∷◌, [], ◌≤◌, pos, true, IfOk, OnOk};
ghost use Rattle.quartz_tree.specs.Tree.{tree as plain};
ghost use Rattle.quartz_expr.specs.Faults.{divides as plain_divides};
ghost use Rattle.quartz_expr.specs.Intervals.{interval, is_in, is_inside as plain_is_inside, span};
ghost use Rattle.quartz_expr.specs.Typed.{AreSound, IsTyped, have_sound_types};
ghost use Rattle.quartz_expr.specs.Vars.{count_of, length_of};
ghost use Rattle.aif_cells.specs.Tree.{tree, two, value};
ghost use Rattle.statement_cells.specs.Expressions.{divisor_tests, index_tests, is_outside, literal as plain_literal, may_be_outside, tests_of, tree_of};
ghost use Rattle.expression_cells.specs.Guards.{fits_guard, guard_in};
ghost use Rattle.expression_cells.specs.Literals.{fits};
ghost use Rattle.expression_cells.specs.Tests.{all_tests};

use crate::fault_test::Test;
use crate::guard::{Guard, guard_tree, inside};
use crate::trees::{fitting_tree, literal, with_two};
use aif_cells::{Ref, Tree, TreeTwo};
use quartz_tree::{Binary, Expr, Kind, NoMemory, Place, Var};
use quartz_types::interval;
use statement_cells::Current;
use std::alloc::Global;

/// Whether the first interval lies in the second.
pub(crate) fn is_inside(inner: (i64, i64), outer: (i64, i64)) -> bool
    ensures { result ≡ plain_is_inside (span inner.0 inner.1) (span outer.0 outer.1) }
{
    outer.0 <= inner.0 && inner.1 <= outer.1
}

// The length of an array, and nothing for a scalar.
fn length_of(vars: &[Var], var: u32) -> Option<u128>
    ensures { result ≡ length_of vars.now var }
{
    match vars.get(var as usize) {
        Some(var) => var.decl.ty.len,
        None => None,
    }
}

/// How many elements a variable has, of those whose types are checked: 64 at most.
#[tactic(auto, using(quartz_expr::proofs::RangeLemmas::count_small))]
pub fn count_elements(vars: &[Var], var: u32) -> u32
    requires { have_sound_types vars.now ≡ true }
    ensures count { result ≡ count_of vars.now var }
    ensures small { result ≤ 64 }
{
    length_of(vars, var).unwrap_or(1) as u32
}

// The index of an element may lie outside.
fn may_be_outside(vars: &[Var], var: u32, index: &Expr<u32>) -> bool
    requires { have_sound_types vars.now ≡ true }
    ensures { result ≡ may_be_outside vars.now var (plain index.now) }
{
    let last = count_elements(vars, var).saturating_sub(1);
    !is_inside(interval(index, vars), (0, last as i64))
}

// The index lies below 0, or it is at least the number of elements.
fn outside(
    alloc: Global,
    vars: &[Var],
    copies: &[Current],
    index: &Expr<u32>,
    count: u32,
) -> Result<Tree, NoMemory>
    requires { fits (plain index.now) ≡ true }
    ensures { IfOk result
        (λ t. tree t ≡ is_outside (tree_of vars.now copies.now (plain index.now)) (pos 0)
        (pos count)) }
{
    let index_again = fitting_tree(alloc, vars, copies, index)?;
    let index = fitting_tree(alloc, vars, copies, index)?;
    let below = with_two(alloc, TreeTwo::Lt, index, literal(0))?;
    let above = with_two(alloc, TreeTwo::Ge, index_again, literal(count as i64))?;
    with_two(alloc, TreeTwo::Or, below, above)
}

/// A test under a guard behind the others.
pub(crate) fn push_test(
    alloc: Global,
    vars: &[Var],
    copies: &[Current],
    guard: &Guard<'_>,
    tested: Tree,
    kind: Kind,
    place: Place,
    tests: &mut Vec<Test>,
) -> Result<(), NoMemory>
    requires { fits_guard guard.now ≡ true }
    ensures { OnOk result
        (all_tests tests.new.items
        ≡ all_tests tests.old.items
        ++ record {
          tree = two TreeTwo.And (guard_in vars.now copies.now guard.now) (tree tested);
          kind = kind;
          place = place;
        } ∷ []) }
{
    let guard = guard_tree(alloc, vars, copies, guard)?;
    let tree = with_two(alloc, TreeTwo::And, guard, tested)?;
    tests.push(Test { tree, kind, place })?;
    Ok(())
}

/// The test of an index that may lie outside, behind the others.
pub(crate) fn push_index_test(
    alloc: Global,
    vars: &[Var],
    copies: &[Current],
    guard: &Guard<'_>,
    var: u32,
    index: &Expr<u32>,
    place: Place,
    tests: &mut Vec<Test>,
) -> Result<(), NoMemory>
    requires types { have_sound_types vars.now ≡ true }
    requires guard { fits_guard guard.now ≡ true }
    requires index { fits (plain index.now) ≡ true }
    ensures { OnOk result
        (all_tests tests.new.items
        ≡ all_tests tests.old.items
        ++ index_tests vars.now copies.now (guard_in vars.now copies.now guard.now) var
        (plain index.now) place) }
{
    if !may_be_outside(vars, var, index) {
        return Ok(());
    }
    let tested = outside(alloc, vars, copies, index, count_elements(vars, var))?;
    push_test(
        alloc,
        vars,
        copies,
        guard,
        tested,
        Kind::Index,
        place,
        tests,
    )
}

fn divides(op: Binary) -> bool
    ensures { result ≡ plain_divides op }
{
    matches!(op, Binary::Div | Binary::Rem)
}

// An operator may divide by 0.
fn may_divide_by_zero(op: Binary, divisor: &Expr<u32>, vars: &[Var]) -> bool
    ensures { result ≡ plain_divides op && is_in (interval vars.now (plain divisor.now)) (pos 0) }
{
    divides(op) && is_inside((0, 0), interval(divisor, vars))
}

// The test of a divisor that may be 0, behind the others.
fn push_divisor_test(
    alloc: Global,
    vars: &[Var],
    copies: &[Current],
    guard: &Guard<'_>,
    op: Binary,
    divisor: &Expr<u32>,
    place: Place,
    tests: &mut Vec<Test>,
) -> Result<(), NoMemory>
    requires guard { fits_guard guard.now ≡ true }
    requires divisor { fits (plain divisor.now) ≡ true }
    ensures { OnOk result
        (all_tests tests.new.items
        ≡ all_tests tests.old.items
        ++ divisor_tests vars.now copies.now (guard_in vars.now copies.now guard.now) op
        (plain divisor.now) place) }
{
    if !may_divide_by_zero(op, divisor, vars) {
        return Ok(());
    }
    let divisor = fitting_tree(alloc, vars, copies, divisor)?;
    let tested = with_two(alloc, TreeTwo::Eq, divisor, literal(0))?;
    push_test(
        alloc,
        vars,
        copies,
        guard,
        tested,
        Kind::Divisor,
        place,
        tests,
    )
}

/// The tests of an expression's parts under a guard, behind the others.
pub(crate) fn push_guarded(
    alloc: Global,
    vars: &[Var],
    copies: &[Current],
    guard: &Guard<'_>,
    e: &Expr<u32>,
    tests: &mut Vec<Test>,
) -> Result<(), NoMemory>
    requires types { have_sound_types vars.now ≡ true }
    requires guard { fits_guard guard.now ≡ true }
    requires parts { fits (plain e.now) ≡ true }
    ensures { OnOk result
        (all_tests tests.new.items
        ≡ all_tests tests.old.items
        ++ tests_of vars.now copies.now (guard_in vars.now copies.now guard.now) (plain e.now)) }
{
    match e {
        Expr::Truth { .. } => Ok(()),
        Expr::Number { .. } => Ok(()),
        Expr::Bits { .. } => Ok(()),
        Expr::Named { .. } => Ok(()),
        Expr::Element { var, index, place } => {
            push_guarded(alloc, vars, copies, guard, index, tests)?;
            push_index_test(alloc, vars, copies, guard, *var, index, *place, tests)
        }
        Expr::One { part, .. } => push_guarded(alloc, vars, copies, guard, part, tests),
        Expr::Two {
            op,
            left,
            right,
            place,
        } => {
            push_guarded(alloc, vars, copies, guard, left, tests)?;
            push_guarded(alloc, vars, copies, guard, right, tests)?;
            push_divisor_test(alloc, vars, copies, guard, *op, right, *place, tests)
        }
        Expr::Choice { cond, yes, no, .. } => {
            push_guarded(alloc, vars, copies, guard, cond, tests)?;
            let holds = inside(&*guard, &*cond, true);
            push_guarded(alloc, vars, copies, &holds, yes, tests)?;
            let fails = inside(&*guard, &*cond, false);
            push_guarded(alloc, vars, copies, &fails, no, tests)
        }
        Expr::Slice { part, .. } => push_guarded(alloc, vars, copies, guard, part, tests),
        Expr::ToNat { part, .. } => push_guarded(alloc, vars, copies, guard, part, tests),
        Expr::ToBv { part, .. } => push_guarded(alloc, vars, copies, guard, part, tests),
        Expr::Paren { part, .. } => push_guarded(alloc, vars, copies, guard, part, tests),
    }
}

/// The tests of an expression under a guard, behind the others: of its parts from left to right, of
/// a part before the whole, and of the sides of a choice under its condition.
#[tactic(auto, using(crate::proofs::LiteralLemmas::fits_typed))]
pub fn push_tests(
    alloc: Global,
    vars: &[Var],
    copies: &[Current],
    guard: Ref,
    e: &Expr<u32>,
    tests: &mut Vec<Test>,
) -> Result<(), NoMemory>
    requires sound { AreSound vars.now }
    requires typed { IsTyped vars.now (plain e.now) }
    ensures { OnOk result
        (all_tests tests.new.items
        ≡ all_tests tests.old.items ++ tests_of vars.now copies.now (value guard) (plain e.now)) }
{
    push_guarded(alloc, vars, copies, &Guard::Given(guard), e, tests)
}
