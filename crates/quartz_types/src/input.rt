//! The rule that no input is written.

ghost use Rattle.std.specs.Prelude.{◌≡◌, map};
ghost use Rattle.quartz_tree.specs.Kernel.{kernel, kernels};
ghost use Rattle.quartz_tree.specs.Least.{least_place};
ghost use Rattle.quartz_types.specs.Rules.{all_input_writes, flow_of, input_writes, is_input};

use quartz_names::{lesser_place, place_if, unscoped};
use quartz_tree::{Flow, Place, Stmt, Var};

fn is_input(vars: &[Var], var: u32) -> bool
    ensures { result ≡ is_input (flow_of vars.now var) }
{
    match vars.get(var as usize) {
        Some(var) => matches!(var.decl.flow, Flow::Input),
        None => false,
    }
}

/// The least write of an input.
#[cycle(inputs)]
#[tactic(auto, using(crate::proofs::UnscopedLemmas::inputs_unscoped))]
pub fn least_input_write(stmt: &Stmt, vars: &[Var]) -> Option<Place>
    ensures { result ≡ least_place (input_writes vars.now (kernel stmt.now)) }
{
    least_inside(unscoped(stmt), vars)
}

// The least write of an input in a statement without the scopes around it.
#[cycle(inputs)]
#[tactic(auto, using(quartz_names::proofs::LeastLemmas::least_append))]
fn least_inside(stmt: &Stmt, vars: &[Var]) -> Option<Place>
    ensures { result ≡ least_place (input_writes vars.now (kernel stmt.now)) }
{
    match stmt {
        Stmt::Nothing => None,
        Stmt::Pause => None,
        Stmt::Write { var, place, .. } => place_if(is_input(vars, *var), *place),
        Stmt::Choose { yes, no, .. } => lesser_place(
            least_input_write(yes, vars),
            least_input_write(no, vars),
        ),
        Stmt::Seq(parts) => least_in_parts(parts, vars),
        Stmt::Par(parts) => least_in_parts(parts, vars),
        Stmt::Loop { body, .. } => least_input_write(body, vars),
        Stmt::Guard { body, .. } => least_input_write(body, vars),
        Stmt::Local { body, .. } => least_input_write(body, vars),
    }
}

#[cycle(inputs)]
fn least_in_parts(stmts: &[Stmt], vars: &[Var]) -> Option<Place>
    ensures { result ≡ least_place (all_input_writes vars.now (kernels (map kernel stmts.now))) }
{
    let mut least = None;
    for stmt in stmts {
        least = lesser_place(least, least_input_write(stmt, vars));
    }
    least
}
