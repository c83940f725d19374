//! The rule of bounds in statements.

ghost use Rattle.std.specs.Prelude.{◌≡◌, map, option_map};
ghost use Rattle.quartz_tree.specs.Kernel.{kernel, kernels};
ghost use Rattle.quartz_tree.specs.Least.{least_place};
ghost use Rattle.quartz_tree.specs.Tree.{tree};
ghost use Rattle.quartz_types.specs.Rules.{index_bound_breaks, stmt_bound_breaks, stmts_bound_breaks, write_bound_breaks};

use crate::bounded::least_expr_bound_break;
use quartz_names::{lesser_place, unscoped};
use quartz_tree::{Expr, Place, Stmt, Var};

// The least place at which an index breaks a bound.
fn least_index_bound_break(index: &Option<Expr<u32>>, vars: &[Var]) -> Option<Place>
    ensures { result ≡ least_place (index_bound_breaks vars.now (option_map tree index.now)) }
{
    match index {
        None => None,
        Some(index) => least_expr_bound_break(index, vars),
    }
}

// The least place at which a write's index or value breaks a bound.
#[tactic(auto, using(quartz_names::proofs::LeastLemmas::least_append))]
fn least_write_break(index: &Option<Expr<u32>>, value: &Expr<u32>, vars: &[Var]) -> Option<Place>
    ensures { result
        ≡ least_place (write_bound_breaks vars.now (option_map tree index.now) (tree value.now)) }
{
    let index = least_index_bound_break(index, vars);
    lesser_place(index, least_expr_bound_break(value, vars))
}

/// The least place at which an expression of a statement breaks a bound.
#[cycle(bounds)]
#[tactic(auto, using(crate::proofs::UnscopedLemmas::bounds_unscoped))]
pub fn least_bound_break(stmt: &Stmt, vars: &[Var]) -> Option<Place>
    ensures { result ≡ least_place (stmt_bound_breaks vars.now (kernel stmt.now)) }
{
    least_inside(unscoped(stmt), vars)
}

// The least place at which a statement without the scopes around it breaks a bound.
#[cycle(bounds)]
#[tactic(auto, using(quartz_names::proofs::LeastLemmas::least_append))]
fn least_inside(stmt: &Stmt, vars: &[Var]) -> Option<Place>
    ensures { result ≡ least_place (stmt_bound_breaks vars.now (kernel stmt.now)) }
{
    match stmt {
        Stmt::Nothing => None,
        Stmt::Pause => None,
        Stmt::Write { index, value, .. } => least_write_break(index, value, vars),
        Stmt::Choose { cond, yes, no } => {
            let cond = least_expr_bound_break(cond, vars);
            let yes = least_bound_break(yes, vars);
            let no = least_bound_break(no, vars);
            lesser_place(cond, lesser_place(yes, no))
        }
        Stmt::Seq(parts) => least_in_parts(parts, vars),
        Stmt::Par(parts) => least_in_parts(parts, vars),
        Stmt::Loop { body, cond, .. } => {
            let body = least_bound_break(body, vars);
            lesser_place(body, least_expr_bound_break(cond, vars))
        }
        Stmt::Guard { body, cond, .. } => {
            let body = least_bound_break(body, vars);
            lesser_place(body, least_expr_bound_break(cond, vars))
        }
        Stmt::Local { body, .. } => least_bound_break(body, vars),
    }
}

#[cycle(bounds)]
fn least_in_parts(stmts: &[Stmt], vars: &[Var]) -> Option<Place>
    ensures { result ≡ least_place (stmts_bound_breaks vars.now (kernels (map kernel stmts.now))) }
{
    let mut least = None;
    for stmt in stmts {
        least = lesser_place(least, least_bound_break(stmt, vars));
    }
    least
}
