//! The walk of a form with a list of values for the scopes that it meets.

ghost use Rattle.std.specs.Prelude.{◌≡◌, true, map};
ghost use Rattle.quartz_expr.specs.Typed.{AreSound, Fits};
ghost use Rattle.quartz_expr.specs.Terms.{par, seq};
ghost use Rattle.sos_model.specs.FormTerms.{term, terms};
ghost use Rattle.sos_model.specs.Found.{Walked};
ghost use Rattle.sos_model.specs.Sound.{are_sound, is_sound};

use crate::answering::{
    guard_answer, loop_answer, no_answer, scope_answer, stop_answer, write_answer, yes_answer,
};
use crate::entering::{Scope, enter, exchange};
use crate::fault::WalkFault;
use crate::faulting::is_false;
use crate::form::Form;
use crate::found::Found;
use crate::passed::{Beside, Passed};
use crate::reacting::{Guard, nothing, pause, stops};
use crate::writing::Assignment;
use quartz_expr::Env;
use quartz_tree::Var;
use std::alloc::Global;

/// Walks through a form. The environment is the same afterwards.
#[cycle(walk)]
pub(crate) fn walk(
    alloc: Global,
    form: &Form,
    vars: &[Var],
    env: &mut Env,
    given: &[i64],
) -> Result<Found, WalkFault>
    requires vars { AreSound vars.now }
    requires sound { is_sound vars.now (term form.now) ≡ true }
    requires fits { Fits vars.now env.old.values }
    ensures walked { Walked vars.now env.old.values (term form.now) given.now result }
    ensures env { env.new.values ≡ env.old.values }
{
    match form {
        Form::Nothing => Ok(nothing(alloc)),
        Form::Pause => Ok(pause(alloc)),
        Form::Write {
            var,
            index,
            value,
            delayed,
            place,
            target_place,
        } => {
            let write = Assignment {
                var: *var,
                index,
                value,
                delayed: *delayed,
                place: *place,
                target_place: *target_place,
            };
            write_answer(alloc, write, vars, env)
        }
        Form::If { cond, yes, no } => {
            if is_false(cond, vars, env) {
                let inner = walk(alloc, no, vars, env, given);
                no_answer(alloc, cond, vars, env, inner)
            } else {
                let inner = walk(alloc, yes, vars, env, given);
                yes_answer(alloc, cond, vars, env, inner)
            }
        }
        Form::Seq(parts) => walk_in_order(alloc, parts, vars, env, given),
        Form::Par(parts) => walk_beside(alloc, parts, vars, env, given),
        Form::Loop { body, cond } => {
            let inner = walk(alloc, body, vars, env, given);
            loop_answer(alloc, body, cond, inner)
        }
        Form::Guard {
            abort,
            weak,
            immediate,
            body,
            cond,
        } => {
            let guard = Guard {
                abort: *abort,
                weak: *weak,
                immediate: *immediate,
                body,
                cond,
            };
            if stops(guard, vars, env) {
                stop_answer(alloc, guard, vars, env)
            } else {
                let inner = walk(alloc, body, vars, env, given);
                guard_answer(alloc, guard, vars, env, inner)
            }
        }
        Form::Scope { var, store, body } => {
            let scope = Scope {
                var: *var,
                store,
                body,
            };
            let entry = enter(alloc, scope, vars, given)?;
            let before = exchange(alloc, env, *var, &entry.read)?;
            let inner = walk(alloc, body, vars, env, &given[entry.store.len()..]);
            scope_answer(alloc, scope, vars, env, before, given, entry, inner)
        }
    }
}

/// Walks through the parts of a sequence, up to the first that doesn't end.
#[cycle(walk)]
fn walk_in_order(
    alloc: Global,
    parts: &[Form],
    vars: &[Var],
    env: &mut Env,
    given: &[i64],
) -> Result<Found, WalkFault>
    requires vars { AreSound vars.now }
    requires sound { are_sound vars.now (terms (map term parts.now)) ≡ true }
    requires fits { Fits vars.now env.old.values }
    ensures walked { Walked vars.now env.old.values
        (seq (terms (map term parts.now))) given.now result }
    ensures env { env.new.values ≡ env.old.values }
{
    let mut passed = Passed::new(alloc);
    for (at, part) in parts.iter().enumerate() {
        let found = walk(alloc, part, vars, env, &given[passed.used..])?;
        let rest = &parts[at + 1..];
        if !found.ended {
            return Ok(passed.stop(alloc, part, found, rest)?);
        }
        passed = passed.go_on(alloc, part, found, rest)?;
    }
    Ok(passed.end(alloc))
}

/// Walks through the parts of a parallel.
#[cycle(walk)]
fn walk_beside(
    alloc: Global,
    parts: &[Form],
    vars: &[Var],
    env: &mut Env,
    given: &[i64],
) -> Result<Found, WalkFault>
    requires vars { AreSound vars.now }
    requires sound { are_sound vars.now (terms (map term parts.now)) ≡ true }
    requires fits { Fits vars.now env.old.values }
    ensures walked { Walked vars.now env.old.values
        (par (terms (map term parts.now))) given.now result }
    ensures env { env.new.values ≡ env.old.values }
{
    let mut all = Beside::new(alloc);
    for part in parts {
        let found = walk(alloc, part, vars, env, &given[all.used..])?;
        all = all.with(alloc, part, found)?;
    }
    Ok(all.finish())
}
