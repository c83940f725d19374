//! The guard of a part of an expression, whose tree is made only where a test needs it.

ghost use Rattle.std.specs.Prelude.{◌≡◌, ◌&&◌, IfOk, true};
ghost use Rattle.quartz_tree.specs.Tree.{tree as plain};
ghost use Rattle.quartz_expr.specs.Vars.{Vars};
ghost use Rattle.aif_cells.specs.Tree.{tree, two};
ghost use Rattle.statement_cells.specs.Expressions.{Copies, tree_of};
ghost use Rattle.expression_cells.specs.Guards.{fits_guard, guard_in, side as plain_side};
ghost use Rattle.expression_cells.specs.Literals.{fits};

use crate::trees::{fitting_tree, with_one, with_two};
use aif_cells::{Ref, Tree, TreeOne, TreeTwo};
use quartz_tree::{Expr, NoMemory, Var};
use statement_cells::Current;
use std::alloc::Global;

/// Under what a part of an expression is evaluated: a reference, and the conditions of the choices
/// around the part. Its tree is made only for a test that needs it.
#[derive(Clone, Copy)]
pub(crate) enum Guard<'a> {
    Given(Ref),
    Side {
        outer: &'a Guard<'a>,
        cond: &'a Expr<u32>,
        holds: bool,
    },
}

// A condition that holds, or one that doesn't.
fn side(alloc: Global, holds: bool, cond: Tree) -> Result<Tree, NoMemory>
    ensures { IfOk result (λ t. tree t ≡ plain_side holds (tree cond)) }
{
    if holds {
        Ok(cond)
    } else {
        with_one(alloc, TreeOne::Not, cond)
    }
}

/// The tree of a guard.
pub(crate) fn guard_tree(
    alloc: Global,
    vars: &[Var],
    copies: &[Current],
    guard: &Guard<'_>,
) -> Result<Tree, NoMemory>
    requires { fits_guard guard.now ≡ true }
    ensures { IfOk result (λ t. tree t ≡ guard_in vars.now copies.now guard.now) }
{
    match guard {
        Guard::Given(reference) => Ok(Tree::Value(*reference)),
        Guard::Side { outer, cond, holds } => {
            let outer = guard_tree(alloc, vars, copies, outer)?;
            let cond = fitting_tree(alloc, vars, copies, cond)?;
            let inner = side(alloc, *holds, cond)?;
            with_two(alloc, TreeTwo::And, outer, inner)
        }
    }
}

/// The guard of a choice's side.
pub(crate) fn inside<'a>(outer: &'a Guard<'a>, cond: &'a Expr<u32>, holds: bool) -> Guard<'a>
    ensures guard { (vs : Vars) (κ : Copies)
        → guard_in vs κ result
        ≡ two TreeTwo.And (guard_in vs κ outer.now)
        (plain_side holds (tree_of vs κ (plain cond.now))) }
    ensures fits { fits_guard result ≡ fits_guard outer.now && fits (plain cond.now) }
{
    Guard::Side { outer, cond, holds }
}
