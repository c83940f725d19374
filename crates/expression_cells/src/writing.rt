//! What is written to a variable, and the tests of a write's faults.

ghost use Rattle.std.specs.Prelude.{◌≡◌, ◌++◌, IfOk, OnOk, option_map, true};
ghost use Rattle.quartz_tree.specs.Tree.{tree as plain};
ghost use Rattle.quartz_expr.specs.Typed.{AreSound, IsTyped};
ghost use Rattle.aif_cells.specs.Tree.{fit, tree, two, value as reference};
ghost use Rattle.statement_cells.specs.Expressions.{element_tests, fitted_tree, literal as plain_literal, may_leave_range, range_tests, target_tests, tree_of};
ghost use Rattle.expression_cells.specs.Literals.{HasTypedIndex, fits};
ghost use Rattle.expression_cells.specs.Tests.{all_tests};

use crate::fault_test::Test;
use crate::guard::Guard;
use crate::testing::{is_inside, push_index_test, push_test, push_tests};
use crate::trees::{fitting_tree, literal, with_two};
use aif_cells::{Ref, Tree, TreeTwo};
use quartz_expr::{Span, range_in};
use quartz_tree::{Expr, Kind, NoMemory, Place, Var};
use quartz_types::interval;
use statement_cells::Current;
use std::alloc::Global;

/// The tests of a target's index under a guard, behind the others.
pub fn push_target_tests(
    alloc: Global,
    vars: &[Var],
    copies: &[Current],
    guard: Ref,
    index: &Option<Expr<u32>>,
    tests: &mut Vec<Test>,
) -> Result<(), NoMemory>
    requires sound { AreSound vars.now }
    requires typed { HasTypedIndex vars.now (option_map plain index.now) }
    ensures { OnOk result
        (all_tests tests.new.items
        ≡ all_tests tests.old.items
        ++ target_tests vars.now copies.now (reference guard) (option_map plain index.now)) }
{
    match index {
        None => Ok(()),
        Some(index) => push_tests(alloc, vars, copies, guard, index, tests),
    }
}

/// The test that a target's index names an element under a guard, behind the others, where it may
/// name none.
#[tactic(auto, using(crate::proofs::LiteralLemmas::fits_typed))]
pub fn push_element_tests(
    alloc: Global,
    vars: &[Var],
    copies: &[Current],
    guard: Ref,
    var: u32,
    index: &Option<Expr<u32>>,
    place: Place,
    tests: &mut Vec<Test>,
) -> Result<(), NoMemory>
    requires sound { AreSound vars.now }
    requires typed { HasTypedIndex vars.now (option_map plain index.now) }
    ensures { OnOk result
        (all_tests tests.new.items
        ≡ all_tests tests.old.items
        ++ element_tests vars.now copies.now (reference guard) var
        (option_map plain index.now) place) }
{
    match index {
        None => Ok(()),
        Some(index) => push_index_test(
            alloc,
            vars,
            copies,
            &Guard::Given(guard),
            var,
            index,
            place,
            tests,
        ),
    }
}

// The value may lie outside the target's range.
fn may_leave_range(vars: &[Var], var: u32, value: &Expr<u32>) -> bool
    ensures { result ≡ may_leave_range vars.now var (plain value.now) }
{
    let range = range_in(vars, var);
    !is_inside(interval(value, vars), (range.low, range.high))
}

// The value lies below the range, or above it.
fn beyond(
    alloc: Global,
    vars: &[Var],
    copies: &[Current],
    value: &Expr<u32>,
    range: Span,
) -> Result<Tree, NoMemory>
    requires { fits (plain value.now) ≡ true }
    ensures { IfOk result
        (λ t. tree t ≡ two TreeTwo.Or
        (two TreeTwo.Lt (tree_of vars.now copies.now (plain value.now)) (plain_literal range.low))
        (two TreeTwo.Gt (tree_of vars.now copies.now (plain value.now))
        (plain_literal range.high))) }
{
    let value_again = fitting_tree(alloc, vars, copies, value)?;
    let value = fitting_tree(alloc, vars, copies, value)?;
    let below = with_two(alloc, TreeTwo::Lt, value, literal(range.low))?;
    let above = with_two(alloc, TreeTwo::Gt, value_again, literal(range.high))?;
    with_two(alloc, TreeTwo::Or, below, above)
}

/// The test that a value lies in its target's range under a guard, behind the others, where it may
/// lie outside.
#[tactic(auto, using(crate::proofs::LiteralLemmas::fits_typed))]
pub fn push_range_tests(
    alloc: Global,
    vars: &[Var],
    copies: &[Current],
    guard: Ref,
    var: u32,
    value: &Expr<u32>,
    place: Place,
    tests: &mut Vec<Test>,
) -> Result<(), NoMemory>
    requires { IsTyped vars.now (plain value.now) }
    ensures { OnOk result
        (all_tests tests.new.items
        ≡ all_tests tests.old.items
        ++ range_tests vars.now copies.now (reference guard) var (plain value.now) place) }
{
    if !may_leave_range(vars, var, value) {
        return Ok(());
    }
    let tested = beyond(alloc, vars, copies, value, range_in(vars, var))?;
    push_test(
        alloc,
        vars,
        copies,
        &Guard::Given(guard),
        tested,
        Kind::Range,
        place,
        tests,
    )
}

// The tree where its value lies in the range, else 0.
fn fit(alloc: Global, computed: Tree, range: Span) -> Result<Tree, NoMemory>
    ensures { IfOk result (λ t. tree t ≡ fit (tree computed) range.low range.high) }
{
    Ok(Tree::Fit(Box::new(alloc, computed)?, range.low, range.high))
}

/// What is written to a variable: the value's tree, and 0 where the value lies outside the
/// variable's range.
#[tactic(auto, using(crate::proofs::LiteralLemmas::fits_typed))]
pub fn fitted_tree(
    alloc: Global,
    vars: &[Var],
    copies: &[Current],
    var: u32,
    value: &Expr<u32>,
) -> Result<Tree, NoMemory>
    requires { IsTyped vars.now (plain value.now) }
    ensures { IfOk result (λ t. tree t ≡ fitted_tree vars.now copies.now var (plain value.now)) }
{
    let computed = fitting_tree(alloc, vars, copies, value)?;
    if !may_leave_range(vars, var, value) {
        return Ok(computed);
    }
    fit(alloc, computed, range_in(vars, var))
}
