//! Writes: the act and the faults of one.

ghost use Rattle.std.specs.Prelude.{◌≡◌, ◌++◌, IfOk, option_map, option_to_list};
ghost use Rattle.quartz_tree.specs.Tree.{tree};
ghost use Rattle.quartz_expr.specs.Intervals.{is_in, range_of};
ghost use Rattle.quartz_expr.specs.Typed.{AreSound, Fits, IsTyped};
ghost use Rattle.quartz_expr.specs.Writes.{in_range, target_faults, target_index, write_acts, write_faults};
ghost use Rattle.sos_model.specs.Sound.{IsTypedIndex};

use crate::faulting::{add_fault, add_faults, add_index_fault, names_element};
use quartz_expr::{Act, Env, eval, range_in};
use quartz_tree::{Expr, Fault, Kind, NoMemory, Place, Var};

/// Whether a value lies in the variable's range.
pub(crate) fn is_in_range(vars: &[Var], var: u32, value: i64) -> bool
    ensures { result ≡ is_in (range_of vars.now var) value }
{
    let range = range_in(vars, var);
    range.low <= value && value <= range.high
}

/// The value, or 0 where it is out of the variable's range.
pub(crate) fn in_range_value(vars: &[Var], var: u32, value: i64) -> i64
    ensures { result ≡ in_range vars.now var value }
{
    if is_in_range(vars, var, value) {
        value
    } else {
        0
    }
}

// The element that is written.
fn index_of_target(vars: &[Var], env: &Env, index: &Option<Expr<u32>>) -> i64
    requires sound { AreSound vars.now }
    requires typed { IsTypedIndex vars.now (option_map tree index.now) }
    requires fits { Fits vars.now env.now.values }
    ensures { result ≡ target_index vars.now env.now.values (option_map tree index.now) }
{
    match index {
        None => 0,
        Some(index) => eval(index, vars, env),
    }
}

fn add_target_faults(
    all: &mut Vec<Fault>,
    index: &Option<Expr<u32>>,
    vars: &[Var],
    env: &Env,
) -> Result<(), NoMemory>
    requires sound { AreSound vars.now }
    requires typed { IsTypedIndex vars.now (option_map tree index.now) }
    requires fits { Fits vars.now env.now.values }
    ensures { IfOk result (λ _. all.new.items ≡ all.old.items
        ++ target_faults vars.now env.now.values (option_map tree index.now)) }
{
    match index {
        None => Ok(()),
        Some(index) => add_faults(all, index, vars, env),
    }
}

/// What a write writes.
#[derive(Clone, Copy)]
pub(crate) struct Assignment<'a> {
    pub var: u32,
    pub index: &'a Option<Expr<u32>>,
    pub value: &'a Expr<u32>,
    pub delayed: bool,
    pub place: Place,
    pub target_place: Place,
}

/// The act of a write, if its index names an element.
#[tactic(auto, using(crate::proofs::WriteLemmas::small_index))]
pub(crate) fn act_of(write: Assignment, vars: &[Var], env: &Env) -> Option<Act>
    requires sound { AreSound vars.now }
    requires index { IsTypedIndex vars.now (option_map tree write.index.now) }
    requires value { IsTyped vars.now (tree write.value.now) }
    requires fits { Fits vars.now env.now.values }
    ensures { option_to_list result ≡ write_acts vars.now env.now.values write.entry.var
        (option_map tree write.entry.index.now) (tree write.entry.value.now) write.entry.delayed }
{
    let index = index_of_target(vars, env, write.index);
    if !names_element(vars, write.var, index) {
        return None;
    }
    Some(Act {
        var: write.var,
        element: index as u32,
        value: in_range_value(vars, write.var, eval(write.value, vars, env)),
        delayed: write.delayed,
    })
}

/// Adds the faults of a write.
pub(crate) fn add_write_faults(
    all: &mut Vec<Fault>,
    write: Assignment,
    vars: &[Var],
    env: &Env,
) -> Result<(), NoMemory>
    requires sound { AreSound vars.now }
    requires index { IsTypedIndex vars.now (option_map tree write.index.now) }
    requires value { IsTyped vars.now (tree write.value.now) }
    requires fits { Fits vars.now env.now.values }
    ensures { IfOk result (λ _. all.new.items ≡ all.old.items ++ write_faults vars.now
        env.now.values write.entry.var (option_map tree write.entry.index.now)
        (tree write.entry.value.now) write.entry.place write.entry.target_place) }
{
    add_target_faults(all, write.index, vars, env)?;
    add_faults(all, write.value, vars, env)?;
    let index = index_of_target(vars, env, write.index);
    add_index_fault(all, vars, write.var, index, write.target_place)?;
    let is_out = !is_in_range(vars, write.var, eval(write.value, vars, env));
    add_fault(all, is_out, Kind::Range, write.place)
}
