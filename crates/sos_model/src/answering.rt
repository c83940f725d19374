//! What a form answers, by what its parts answer.

ghost use Rattle.std.specs.Prelude.{◌≡◌, ◌<◌, ◌≤◌, ◌^◌, ℤ, List, drop, false, length, option_map, slice_set, take, true};
ghost use Rattle.quartz_tree.specs.Tree.{tree};
ghost use Rattle.quartz_expr.specs.Values.{Values, is_zero};
ghost use Rattle.quartz_expr.specs.Value.{value};
ghost use Rattle.quartz_expr.specs.Vars.{Vars};
ghost use Rattle.quartz_expr.specs.Terms.{Term, choose, guard_of, loop, scope as scope_term, write as write_term};
ghost use Rattle.quartz_expr.specs.Typed.{AreSound, Fits, IsTyped};
ghost use Rattle.quartz_expr.specs.React.{store_of};
ghost use Rattle.sos_model.specs.FormTerms.{term};
ghost use Rattle.sos_model.specs.Found.{Walked};
ghost use Rattle.sos_model.specs.Sound.{IsTypedIndex};
ghost use Rattle.sos_model.specs.Walk.{read_as, stops_body};

use crate::entering::{Entry, Scope, leave};
use crate::fault::WalkFault;
use crate::form::Form;
use crate::found::Found;
use crate::reacting::{Guard, react_choice, react_guard, react_loop, react_write, stop_body};
use crate::writing::Assignment;
use quartz_expr::Env;
use quartz_tree::{Expr, Var};
use sqlite_items::Items;
use std::alloc::Global;

/// A write.
pub(crate) fn write_answer(
    alloc: Global,
    write: Assignment,
    vars: &[Var],
    env: &Env,
) -> Result<Found, WalkFault>
    requires sound { AreSound vars.now }
    requires index { IsTypedIndex vars.now (option_map tree write.index.now) }
    requires value { IsTyped vars.now (tree write.value.now) }
    requires fits { Fits vars.now env.now.values }
    ensures { (xs : List ℤ) → Walked vars.now env.now.values (write_term write.entry.var
        (option_map tree write.entry.index.now) (tree write.entry.value.now)
        write.entry.delayed write.entry.place write.entry.target_place) xs result }
{
    Ok(react_write(alloc, write, vars, env)?)
}

/// A choice whose condition fails, by what its second side answers.
pub(crate) fn no_answer(
    alloc: Global,
    cond: &Expr<u32>,
    vars: &[Var],
    env: &Env,
    inner: Result<Found, WalkFault>,
) -> Result<Found, WalkFault>
    requires sound { AreSound vars.now }
    requires typed { IsTyped vars.now (tree cond.now) }
    requires fits { Fits vars.now env.now.values }
    requires fails { is_zero (value vars.now env.now.values (tree cond.now)) ≡ true }
    ensures { (a b : Term) (xs : List ℤ) → Walked vars.now env.now.values b xs inner →
        Walked vars.now env.now.values (choose (tree cond.now) a b) xs result }
{
    let found = inner?;
    Ok(react_choice(alloc, cond, vars, env, found)?)
}

/// A choice whose condition holds, by what its first side answers.
pub(crate) fn yes_answer(
    alloc: Global,
    cond: &Expr<u32>,
    vars: &[Var],
    env: &Env,
    inner: Result<Found, WalkFault>,
) -> Result<Found, WalkFault>
    requires sound { AreSound vars.now }
    requires typed { IsTyped vars.now (tree cond.now) }
    requires fits { Fits vars.now env.now.values }
    requires holds { is_zero (value vars.now env.now.values (tree cond.now)) ≡ false }
    ensures { (a b : Term) (xs : List ℤ) → Walked vars.now env.now.values a xs inner →
        Walked vars.now env.now.values (choose (tree cond.now) a b) xs result }
{
    let found = inner?;
    Ok(react_choice(alloc, cond, vars, env, found)?)
}

/// A loop, by what its body answers.
pub(crate) fn loop_answer(
    alloc: Global,
    body: &Form,
    cond: &Expr<u32>,
    inner: Result<Found, WalkFault>,
) -> Result<Found, WalkFault>
    ensures { (vs : Vars) (env : Values) (xs : List ℤ) → Walked vs env (term body.now) xs inner →
        Walked vs env (loop (term body.now) (tree cond.now)) xs result }
{
    let found = inner?;
    Ok(react_loop(alloc, body, cond, found)?)
}

/// A guard that stops its body.
pub(crate) fn stop_answer(
    alloc: Global,
    guard: Guard,
    vars: &[Var],
    env: &Env,
) -> Result<Found, WalkFault>
    requires sound { AreSound vars.now }
    requires typed { IsTyped vars.now (tree guard.cond.now) }
    requires fits { Fits vars.now env.now.values }
    requires stops { stops_body guard.weak guard.immediate
        (is_zero (value vars.now env.now.values (tree guard.cond.now))) ≡ true }
    ensures { (xs : List ℤ) → Walked vars.now env.now.values
        (guard_of guard.entry.abort guard.entry.weak guard.entry.immediate
        (term guard.entry.body.now) (tree guard.entry.cond.now)) xs result }
{
    Ok(stop_body(alloc, guard, vars, env)?)
}

/// A guard that doesn't stop its body, by what the body answers.
pub(crate) fn guard_answer(
    alloc: Global,
    guard: Guard,
    vars: &[Var],
    env: &Env,
    inner: Result<Found, WalkFault>,
) -> Result<Found, WalkFault>
    requires sound { AreSound vars.now }
    requires typed { IsTyped vars.now (tree guard.cond.now) }
    requires fits { Fits vars.now env.now.values }
    requires spares { stops_body guard.weak guard.immediate
        (is_zero (value vars.now env.now.values (tree guard.cond.now))) ≡ false }
    ensures { (xs : List ℤ) → Walked vars.now env.now.values (term guard.entry.body.now) xs inner →
        Walked vars.now env.now.values (guard_of guard.entry.abort guard.entry.weak
        guard.entry.immediate (term guard.entry.body.now) (tree guard.entry.cond.now)) xs result }
{
    let found = inner?;
    Ok(react_guard(alloc, guard, vars, env, found)?)
}

/// Leaves a scope, by what its body answers: the variable has the values again that it had before.
#[tactic(auto, using(crate::proofs::WalkedLemmas::used_within))]
pub(crate) fn scope_answer(
    alloc: Global,
    scope: Scope,
    vars: &[Var],
    env: &mut Env,
    before: Items<i64>,
    given: &[i64],
    entry: Entry,
    inner: Result<Found, WalkFault>,
) -> Result<Found, WalkFault>
    requires place { scope.var < length env.old.values }
    requires few { length entry.store.items < 2 ^ 32 }
    requires enough { length entry.store.items ≤ length given.now }
    requires store { entry.store.items ≡ store_of vars.now scope.var
        (option_map (λ v. v.items) scope.store.now) }
    requires read { entry.read.items ≡ read_as vars.now scope.var
        (take (length entry.store.items) given.now) }
    requires within { slice_set env.old.values scope.var entry.read.items ≡ env.old.values }
    requires walked { Walked vars.now env.old.values (term scope.body.now)
        (drop (length entry.store.items) given.now) inner }
    ensures env { env.new.values ≡ slice_set env.old.values scope.entry.var before }
    ensures walked { Walked vars.now (slice_set env.old.values scope.entry.var before)
        (scope_term scope.entry.var (option_map (λ v. v.items) scope.entry.store.now)
        (term scope.entry.body.now)) given.now result }
{
    env.values.set(scope.var as usize, before);
    match inner {
        Err(fault) => Err(fault),
        Ok(found) => {
            let front = &given[..entry.store.len()];
            Ok(leave(alloc, scope, vars, front, entry, found)?)
        }
    }
}
