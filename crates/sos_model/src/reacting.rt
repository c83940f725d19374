//! What a form makes of what its parts did.

ghost use Rattle.std.specs.Prelude.{◌≡◌, ◌++◌, [], true, false, not, IfOk, map, option_map};
ghost use Rattle.quartz_tree.specs.Tree.{tree};
ghost use Rattle.quartz_expr.specs.Values.{is_zero};
ghost use Rattle.quartz_expr.specs.Value.{value};
ghost use Rattle.quartz_expr.specs.Faults.{faults as faults_of};
ghost use Rattle.quartz_expr.specs.Terms.{Term, choose, guard_of, loop, none, nothing as nothing_term, part, pause as pause_term, seq, write as write_term};
ghost use Rattle.quartz_expr.specs.Typed.{AreSound, Fits, IsTyped};
ghost use Rattle.quartz_expr.specs.Writes.{write_acts, write_faults};
ghost use Rattle.quartz_expr.specs.Tick.{tick};
ghost use Rattle.quartz_expr.specs.React.{after_faults, ends, formed, unless_ended};
ghost use Rattle.sos_model.specs.FormTerms.{term};
ghost use Rattle.sos_model.specs.Found.{held_or, reaction_of};
ghost use Rattle.sos_model.specs.Sound.{IsTypedIndex};
ghost use Rattle.sos_model.specs.Walk.{chosen as chosen_walk, delayed_guard, guarded as guarded_walk, looped as looped_walk, stops_body, strong_guard, tested_guard, weak_guard};

use crate::copying::{copy_form, held_form};
use crate::faulting::{add_faults, is_false};
use crate::form::Form;
use crate::found::Found;
use crate::ticking::tick_form;
use crate::writing::{Assignment, act_of, add_write_faults};
use quartz_expr::{Act, Env};
use quartz_tree::{Copied, Expr, Fault, NoMemory, Var};
use std::alloc::Global;

// It ends at once.
fn end_at_once(alloc: Global, held: Option<Form>, acts: Vec<Act>, faults: Vec<Fault>) -> Found
    ensures reaction { (t : Term) →
        reaction_of t result ≡ ends acts.items faults.items (held_or (option_map term held) t) }
    ensures used { result.used ≡ 0 }
{
    Found {
        residual: Form::Nothing,
        held,
        acts,
        faults,
        met: Vec::new(alloc),
        ended: true,
        used: 0,
    }
}

// It does nothing and stays.
fn stay(alloc: Global, residual: Form, held: Option<Form>, faults: Vec<Fault>) -> Found
    ensures reaction { (t : Term) → reaction_of t result
        ≡ record {
          residual = term residual;
          held = held_or (option_map term held) t;
          acts = [];
          faults = faults.items;
          met = [];
          ended = false;
        } }
    ensures used { result.used ≡ 0 }
{
    Found {
        residual,
        held,
        acts: Vec::new(alloc),
        faults,
        met: Vec::new(alloc),
        ended: false,
        used: 0,
    }
}

/// Nothing.
pub(crate) fn nothing(alloc: Global) -> Found
    ensures reaction { reaction_of nothing_term result ≡ ends [] [] nothing_term }
    ensures used { result.used ≡ 0 }
{
    end_at_once(alloc, None, Vec::new(alloc), Vec::new(alloc))
}

/// A pause.
pub(crate) fn pause(alloc: Global) -> Found
    ensures reaction { reaction_of pause_term result ≡ record {
      residual = nothing_term;
      held = pause_term;
      acts = [];
      faults = [];
      met = [];
      ended = false;
    } }
    ensures used { result.used ≡ 0 }
{
    stay(alloc, Form::Nothing, None, Vec::new(alloc))
}

fn acts_of(alloc: Global, write: Assignment, vars: &[Var], env: &Env) -> Result<Vec<Act>, NoMemory>
    requires sound { AreSound vars.now }
    requires index { IsTypedIndex vars.now (option_map tree write.index.now) }
    requires value { IsTyped vars.now (tree write.value.now) }
    requires fits { Fits vars.now env.now.values }
    ensures { IfOk result (λ v. v.items ≡ write_acts vars.now env.now.values write.entry.var
        (option_map tree write.entry.index.now) (tree write.entry.value.now) write.entry.delayed) }
{
    let mut acts = Vec::new(alloc);
    if let Some(act) = act_of(write, vars, env) {
        acts.push(act)?;
    }
    Ok(acts)
}

/// A write.
pub(crate) fn react_write(
    alloc: Global,
    write: Assignment,
    vars: &[Var],
    env: &Env,
) -> Result<Found, NoMemory>
    requires sound { AreSound vars.now }
    requires index { IsTypedIndex vars.now (option_map tree write.index.now) }
    requires value { IsTyped vars.now (tree write.value.now) }
    requires fits { Fits vars.now env.now.values }
    ensures reaction { IfOk result (λ f.
        reaction_of (write_term write.entry.var (option_map tree write.entry.index.now)
        (tree write.entry.value.now) write.entry.delayed write.entry.place write.entry.target_place)
        f ≡ ends (write_acts vars.now env.now.values write.entry.var
        (option_map tree write.entry.index.now) (tree write.entry.value.now) write.entry.delayed)
        (write_faults vars.now env.now.values write.entry.var
        (option_map tree write.entry.index.now)
        (tree write.entry.value.now) write.entry.place write.entry.target_place)
        (write_term write.entry.var (option_map tree write.entry.index.now) (tree
        write.entry.value.now) write.entry.delayed write.entry.place write.entry.target_place)) }
    ensures used { IfOk result (λ f. f.used ≡ 0) }
{
    let mut faults = Vec::new(alloc);
    add_write_faults(&mut faults, write, vars, env)?;
    let acts = acts_of(alloc, write, vars, env)?;
    Ok(end_at_once(alloc, None, acts, faults))
}

// The faults of a condition come first.
fn after_condition(
    alloc: Global,
    cond: &Expr<u32>,
    vars: &[Var],
    env: &Env,
    mut found: Found,
) -> Result<Found, NoMemory>
    requires sound { AreSound vars.now }
    requires typed { IsTyped vars.now (tree cond.now) }
    requires fits { Fits vars.now env.now.values }
    ensures reaction { IfOk result (λ f. (t : Term) → reaction_of t f
        ≡ after_faults (faults_of vars.now env.now.values (tree cond.now)) (reaction_of t found)) }
    ensures used { IfOk result (λ f. f.used ≡ found.used) }
{
    let mut faults = Vec::new(alloc);
    add_faults(&mut faults, cond, vars, env)?;
    faults.append(&mut found.faults)?;
    Ok(Found {
        residual: found.residual,
        held: found.held,
        acts: found.acts,
        faults,
        met: found.met,
        ended: found.ended,
        used: found.used,
    })
}

// It is held by the form itself.
fn held_as_it_is(found: Found) -> Found
    ensures reaction { (t u : Term) →
        reaction_of t result ≡ record (reaction_of u found) { held = t } }
    ensures used { result.used ≡ found.used }
{
    Found {
        residual: found.residual,
        held: None,
        acts: found.acts,
        faults: found.faults,
        met: found.met,
        ended: found.ended,
        used: found.used,
    }
}

/// What a choice makes of what its chosen side did.
pub(crate) fn react_choice(
    alloc: Global,
    cond: &Expr<u32>,
    vars: &[Var],
    env: &Env,
    found: Found,
) -> Result<Found, NoMemory>
    requires sound { AreSound vars.now }
    requires typed { IsTyped vars.now (tree cond.now) }
    requires fits { Fits vars.now env.now.values }
    ensures reaction { IfOk result (λ f. (t u : Term) → reaction_of t f
        ≡ chosen_walk (faults_of vars.now env.now.values (tree cond.now)) t (reaction_of u found)) }
    ensures used { IfOk result (λ f. f.used ≡ found.used) }
{
    let found = after_condition(alloc, cond, vars, env, found)?;
    Ok(held_as_it_is(found))
}

// The form of a loop.
fn loop_form(alloc: Global, body: &Form, cond: &Expr<u32>) -> Result<Form, NoMemory>
    ensures { IfOk result (λ f. term f ≡ loop (term body.now) (tree cond.now)) }
{
    Ok(Form::Loop {
        body: Box::new(alloc, copy_form(alloc, body)?)?,
        cond: cond.copied(alloc)?,
    })
}

// A loop once its body has ended: if the condition holds it starts again.
fn next_round(alloc: Global, body: &Form, cond: &Expr<u32>) -> Result<Form, NoMemory>
    ensures { IfOk result (λ f.
        term f ≡ choose (tree cond.now) (loop (term body.now) (tree cond.now)) nothing_term) }
{
    Ok(Form::If {
        cond: cond.copied(alloc)?,
        yes: Box::new(alloc, loop_form(alloc, body, cond)?)?,
        no: Box::new(alloc, Form::Nothing)?,
    })
}

// A sequence of two.
#[tactic(auto, using(crate::proofs::FormLemmas::term_seq))]
fn pair(alloc: Global, first: Form, second: Form) -> Result<Form, NoMemory>
    ensures { IfOk result (λ f. term f ≡ seq (part (term first) (part (term second) none))) }
{
    let mut parts = Vec::new(alloc);
    parts.push(first)?;
    parts.push(second)?;
    Ok(Form::Seq(parts))
}

/// What a loop makes of what its body did.
pub(crate) fn react_loop(
    alloc: Global,
    body: &Form,
    cond: &Expr<u32>,
    found: Found,
) -> Result<Found, NoMemory>
    ensures reaction { IfOk result (λ f. reaction_of (loop (term body.now) (tree cond.now)) f
        ≡ looped_walk (term body.now) (tree cond.now) (reaction_of (term body.now) found)) }
    ensures used { IfOk result (λ f. f.used ≡ found.used) }
{
    let round = next_round(alloc, body, cond)?;
    Ok(Found {
        residual: pair(alloc, found.residual, round)?,
        held: None,
        acts: found.acts,
        faults: found.faults,
        met: found.met,
        ended: found.ended,
        used: found.used,
    })
}

/// A guard: an abort or a suspension, weak or strong, immediate or delayed.
#[derive(Clone, Copy)]
pub(crate) struct Guard<'a> {
    pub abort: bool,
    pub weak: bool,
    pub immediate: bool,
    pub body: &'a Form,
    pub cond: &'a Expr<u32>,
}

/// Whether a guard stops its body: it is strong and immediate, and its condition holds.
pub(crate) fn stops(guard: Guard, vars: &[Var], env: &Env) -> bool
    requires sound { AreSound vars.now }
    requires typed { IsTyped vars.now (tree guard.cond.now) }
    requires fits { Fits vars.now env.now.values }
    ensures { result ≡ stops_body guard.entry.weak guard.entry.immediate
        (is_zero (value vars.now env.now.values (tree guard.entry.cond.now))) }
{
    guard.immediate && !guard.weak && !is_false(guard.cond, vars, env)
}

// The guard of that kind around a form.
fn guard_form(alloc: Global, guard: Guard, immediate: bool, body: Form) -> Result<Form, NoMemory>
    ensures { IfOk result (λ f. term f ≡ guard_of guard.entry.abort guard.entry.weak immediate
        (term body) (tree guard.entry.cond.now)) }
{
    Ok(Form::Guard {
        abort: guard.abort,
        weak: guard.weak,
        immediate,
        body: Box::new(alloc, body)?,
        cond: guard.cond.copied(alloc)?,
    })
}

/// A guard that stops its body, which advances.
pub(crate) fn stop_body(
    alloc: Global,
    guard: Guard,
    vars: &[Var],
    env: &Env,
) -> Result<Found, NoMemory>
    requires sound { AreSound vars.now }
    requires typed { IsTyped vars.now (tree guard.cond.now) }
    requires fits { Fits vars.now env.now.values }
    requires stops { stops_body guard.weak guard.immediate
        (is_zero (value vars.now env.now.values (tree guard.cond.now))) ≡ true }
    ensures reaction { IfOk result (λ f. (t : Term) →
        reaction_of t f ≡ strong_guard guard.entry.abort
        (tick vars.now (term guard.entry.body.now)) (tree guard.entry.cond.now)
        (faults_of vars.now env.now.values (tree guard.entry.cond.now))) }
    ensures used { IfOk result (λ f. f.used ≡ 0) }
{
    let mut faults = Vec::new(alloc);
    add_faults(&mut faults, guard.cond, vars, env)?;
    let advanced = tick_form(alloc, guard.body, vars)?;
    let held = guard_form(alloc, guard, true, advanced)?;
    if guard.abort {
        Ok(end_at_once(alloc, Some(held), Vec::new(alloc), faults))
    } else {
        let residual = copy_form(alloc, &held)?;
        Ok(stay(alloc, residual, Some(held), faults))
    }
}

// What is left under a guard.
fn left_under(alloc: Global, guard: Guard, ended: bool, residual: Form) -> Result<Form, NoMemory>
    ensures { IfOk result (λ f. term f ≡ unless_ended ended (guard_of guard.entry.abort
        guard.entry.weak true (term residual) (tree guard.entry.cond.now))) }
{
    if ended {
        Ok(Form::Nothing)
    } else {
        let left = guard_form(alloc, guard, true, residual)?;
        Ok(left)
    }
}

// The guard around what its body is held by.
fn held_guard(alloc: Global, guard: Guard, held: Option<Form>) -> Result<Form, NoMemory>
    ensures { IfOk result (λ f. term f ≡ guard_of guard.entry.abort guard.entry.weak true
        (held_or (option_map term held) (term guard.entry.body.now)) (tree guard.entry.cond.now)) }
{
    let body = held_form(alloc, held, guard.body)?;
    let all = guard_form(alloc, guard, true, body)?;
    Ok(all)
}

// The guard around what is left of its body, and around the held body.
fn around(alloc: Global, guard: Guard, found: Found) -> Result<Found, NoMemory>
    ensures reaction { IfOk result (λ f. (t : Term) →
        reaction_of t f ≡ formed (λ u. guard_of guard.entry.abort guard.entry.weak true u
        (tree guard.entry.cond.now)) (reaction_of (term guard.entry.body.now) found)) }
    ensures used { IfOk result (λ f. f.used ≡ found.used) }
{
    Ok(Found {
        residual: left_under(alloc, guard, found.ended, found.residual)?,
        held: Some(held_guard(alloc, guard, found.held)?),
        acts: found.acts,
        faults: found.faults,
        met: found.met,
        ended: found.ended,
        used: found.used,
    })
}

// A guard in the step in which it starts.
fn start_guard(alloc: Global, guard: Guard, found: Found) -> Result<Found, NoMemory>
    ensures reaction { IfOk result (λ f. reaction_of (guard_of guard.entry.abort
        guard.entry.weak false (term guard.entry.body.now) (tree guard.entry.cond.now)) f
        ≡ delayed_guard guard.entry.abort guard.entry.weak (term guard.entry.body.now)
        (tree guard.entry.cond.now) (reaction_of (term guard.entry.body.now) found)) }
    ensures used { IfOk result (λ f. f.used ≡ found.used) }
{
    Ok(Found {
        residual: left_under(alloc, guard, found.ended, found.residual)?,
        held: None,
        acts: found.acts,
        faults: found.faults,
        met: found.met,
        ended: found.ended,
        used: found.used,
    })
}

// A weak abort whose condition holds: it ends.
fn end_by_abort(alloc: Global, guard: Guard, found: Found) -> Result<Found, NoMemory>
    requires abort { guard.abort ≡ true }
    requires weak { guard.weak ≡ true }
    ensures reaction { IfOk result (λ f. (t : Term) → reaction_of t f ≡ weak_guard true
        (tree guard.entry.cond.now) [] (reaction_of (term guard.entry.body.now) found)) }
    ensures used { IfOk result (λ f. f.used ≡ found.used) }
{
    Ok(Found {
        residual: Form::Nothing,
        held: Some(held_guard(alloc, guard, found.held)?),
        acts: found.acts,
        faults: found.faults,
        met: found.met,
        ended: true,
        used: found.used,
    })
}

// A weak suspension whose condition holds: it stays around the held body.
fn hold_by_suspension(alloc: Global, guard: Guard, found: Found) -> Result<Found, NoMemory>
    requires abort { guard.abort ≡ false }
    requires weak { guard.weak ≡ true }
    ensures reaction { IfOk result (λ f. (t : Term) → reaction_of t f ≡ weak_guard false
        (tree guard.entry.cond.now) [] (reaction_of (term guard.entry.body.now) found)) }
    ensures used { IfOk result (λ f. f.used ≡ found.used) }
{
    let held = held_guard(alloc, guard, found.held)?;
    Ok(Found {
        residual: copy_form(alloc, &held)?,
        held: Some(held),
        acts: found.acts,
        faults: found.faults,
        met: found.met,
        ended: false,
        used: found.used,
    })
}

// A weak guard whose condition holds.
fn preempt(alloc: Global, guard: Guard, found: Found) -> Result<Found, NoMemory>
    requires weak { guard.weak ≡ true }
    ensures reaction { IfOk result (λ f. (t : Term) → reaction_of t f ≡ weak_guard guard.entry.abort
        (tree guard.entry.cond.now) [] (reaction_of (term guard.entry.body.now) found)) }
    ensures used { IfOk result (λ f. f.used ≡ found.used) }
{
    if guard.abort {
        let ended = end_by_abort(alloc, guard, found)?;
        Ok(ended)
    } else {
        let stayed = hold_by_suspension(alloc, guard, found)?;
        Ok(stayed)
    }
}

// An immediate guard around what its body did.
fn test_guard(
    alloc: Global,
    guard: Guard,
    vars: &[Var],
    env: &Env,
    found: Found,
) -> Result<Found, NoMemory>
    requires sound { AreSound vars.now }
    requires typed { IsTyped vars.now (tree guard.cond.now) }
    requires fits { Fits vars.now env.now.values }
    requires spares { stops_body guard.weak true
        (is_zero (value vars.now env.now.values (tree guard.cond.now))) ≡ false }
    ensures reaction { IfOk result (λ f. (t : Term) →
        reaction_of t f ≡ tested_guard guard.entry.abort guard.entry.weak
        (is_zero (value vars.now env.now.values (tree guard.entry.cond.now)))
        (tree guard.entry.cond.now) (faults_of vars.now env.now.values (tree guard.entry.cond.now))
        (reaction_of (term guard.entry.body.now) found)) }
    ensures used { IfOk result (λ f. f.used ≡ found.used) }
{
    let found = after_condition(alloc, guard.cond, vars, env, found)?;
    if is_false(guard.cond, vars, env) {
        let stayed = around(alloc, guard, found)?;
        Ok(stayed)
    } else {
        let taken = preempt(alloc, guard, found)?;
        Ok(taken)
    }
}

/// What a guard makes of what its body did.
pub(crate) fn react_guard(
    alloc: Global,
    guard: Guard,
    vars: &[Var],
    env: &Env,
    found: Found,
) -> Result<Found, NoMemory>
    requires sound { AreSound vars.now }
    requires typed { IsTyped vars.now (tree guard.cond.now) }
    requires fits { Fits vars.now env.now.values }
    requires spares { stops_body guard.weak guard.immediate
        (is_zero (value vars.now env.now.values (tree guard.cond.now))) ≡ false }
    ensures reaction { IfOk result (λ f. reaction_of (guard_of guard.entry.abort guard.entry.weak
        guard.entry.immediate (term guard.entry.body.now) (tree guard.entry.cond.now)) f
        ≡ guarded_walk vars.now env.now.values guard.entry.abort
        guard.entry.weak guard.entry.immediate (term guard.entry.body.now)
        (tree guard.entry.cond.now) (reaction_of (term guard.entry.body.now) found)) }
    ensures used { IfOk result (λ f. f.used ≡ found.used) }
{
    if guard.immediate {
        let tested = test_guard(alloc, guard, vars, env, found)?;
        Ok(tested)
    } else {
        let delayed = start_guard(alloc, guard, found)?;
        Ok(delayed)
    }
}
