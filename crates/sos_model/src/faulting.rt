//! The faults of expressions and writes, in the order of evaluation.

ghost use Rattle.std.specs.Prelude.{◌≡◌, ◌++◌, IfOk};
ghost use Rattle.quartz_tree.specs.Tree.{tree};
ghost use Rattle.quartz_expr.specs.Values.{is_zero};
ghost use Rattle.quartz_expr.specs.Value.{value};
ghost use Rattle.quartz_expr.specs.Vars.{count_of};
ghost use Rattle.quartz_expr.specs.Faults.{divides, fault_if, faults, is_index_below, index_faults, divisor_faults};
ghost use Rattle.quartz_expr.specs.Typed.{AreSound, Fits, IsTyped};
ghost use Rattle.sos_model.specs.Sound.{HasTypedParts};

use quartz_expr::{Env, eval};
use quartz_tree::{Binary, Expr, Fault, Kind, NoMemory, Place, Var};

/// How many elements a variable has.
pub(crate) fn element_count(vars: &[Var], var: u32) -> u128
    ensures { result ≡ count_of vars.now var }
{
    match vars.get(var as usize) {
        Some(variable) => variable.decl.ty.len.unwrap_or(1),
        None => 1,
    }
}

/// Whether an index names an element of the variable.
pub(crate) fn names_element(vars: &[Var], var: u32, index: i64) -> bool
    ensures { result ≡ is_index_below (count_of vars.now var) index }
{
    index >= 0 && (index as u128) < element_count(vars, var)
}

/// Adds a fault, where the test holds.
pub(crate) fn add_fault(
    all: &mut Vec<Fault>,
    is: bool,
    kind: Kind,
    place: Place,
) -> Result<(), NoMemory>
    ensures { IfOk result (λ _. all.new.items ≡ all.old.items ++ fault_if is kind place) }
{
    if is {
        all.push(Fault { place, kind })?;
    }
    Ok(())
}

/// Adds an index that names no element of the variable.
pub(crate) fn add_index_fault(
    all: &mut Vec<Fault>,
    vars: &[Var],
    var: u32,
    index: i64,
    place: Place,
) -> Result<(), NoMemory>
    ensures { IfOk result (λ _. all.new.items ≡ all.old.items
        ++ index_faults vars.now var index place) }
{
    let is_out = !names_element(vars, var, index);
    add_fault(all, is_out, Kind::Index, place)
}

fn add_divisor_fault(
    all: &mut Vec<Fault>,
    op: Binary,
    divisor: i64,
    place: Place,
) -> Result<(), NoMemory>
    ensures { IfOk result (λ _. all.new.items ≡ all.old.items ++ divisor_faults op divisor place) }
{
    let is_division = matches!(op, Binary::Div | Binary::Rem);
    add_fault(all, is_division && divisor == 0, Kind::Divisor, place)
}

/// Whether a condition fails.
pub(crate) fn is_false(cond: &Expr<u32>, vars: &[Var], env: &Env) -> bool
    requires sound { AreSound vars.now }
    requires typed { IsTyped vars.now (tree cond.now) }
    requires fits { Fits vars.now env.now.values }
    ensures { result ≡ is_zero (value vars.now env.now.values (tree cond.now)) }
{
    eval(cond, vars, env) == 0
}

// Adds the faults of the parts of an expression whose parts are typed.
fn collect_faults(
    all: &mut Vec<Fault>,
    e: &Expr<u32>,
    vars: &[Var],
    env: &Env,
) -> Result<(), NoMemory>
    requires sound { AreSound vars.now }
    requires typed { HasTypedParts vars.now (tree e.now) }
    requires fits { Fits vars.now env.now.values }
    ensures { IfOk result (λ _. all.new.items ≡ all.old.items
        ++ faults vars.now env.now.values (tree e.now)) }
{
    match e {
        Expr::Truth { .. } | Expr::Number { .. } | Expr::Bits { .. } | Expr::Named { .. } => Ok(()),
        Expr::Element { var, index, place } => {
            collect_faults(all, index, vars, env)?;
            add_index_fault(all, vars, *var, eval(index, vars, env), *place)
        }
        Expr::One { part, .. } => collect_faults(all, part, vars, env),
        Expr::Two {
            op,
            left,
            right,
            place,
        } => {
            collect_faults(all, left, vars, env)?;
            collect_faults(all, right, vars, env)?;
            add_divisor_fault(all, *op, eval(right, vars, env), *place)
        }
        Expr::Choice { cond, yes, no, .. } => {
            collect_faults(all, cond, vars, env)?;
            if is_false(cond, vars, env) {
                collect_faults(all, no, vars, env)
            } else {
                collect_faults(all, yes, vars, env)
            }
        }
        Expr::Slice { part, .. } => collect_faults(all, part, vars, env),
        Expr::ToNat { part, .. } => collect_faults(all, part, vars, env),
        Expr::ToBv { part, .. } => collect_faults(all, part, vars, env),
        Expr::Paren { part, .. } => collect_faults(all, part, vars, env),
    }
}

/// Adds the faults of the parts of an expression that are evaluated.
#[tactic(auto, using(crate::proofs::TypedLemmas::typed_parts))]
pub(crate) fn add_faults(
    all: &mut Vec<Fault>,
    e: &Expr<u32>,
    vars: &[Var],
    env: &Env,
) -> Result<(), NoMemory>
    requires sound { AreSound vars.now }
    requires typed { IsTyped vars.now (tree e.now) }
    requires fits { Fits vars.now env.now.values }
    ensures { IfOk result (λ _. all.new.items ≡ all.old.items
        ++ faults vars.now env.now.values (tree e.now)) }
{
    collect_faults(all, e, vars, env)
}
