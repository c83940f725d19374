//! Scopes: their variable takes the given values while the body reacts, and is resolved behind it.

ghost use Rattle.std.specs.Prelude.{◌≡◌, ◌++◌, ◌<◌, ◌≤◌, ◌+◌, ◌^◌, IfOk, IsErrOf, OnErr, OnOk, Some, false, true, length, map, nat_le, option_map, slice_set, take};
ghost use Rattle.quartz_expr.specs.Values.{elements_in};
ghost use Rattle.quartz_expr.specs.Typed.{AreSound, Fits};
ghost use Rattle.quartz_expr.specs.Terms.{scope as scope_term};
ghost use Rattle.quartz_expr.specs.Resolve.{resolved_store, store_conflicts, values_of};
ghost use Rattle.quartz_expr.specs.Vars.{declared_at, storage_of};
ghost use Rattle.quartz_expr.specs.React.{held_scope, meetings, store_of, unless_ended};
ghost use Rattle.sos_model.specs.FormTerms.{term};
ghost use Rattle.sos_model.specs.Found.{held_or, met_of, reaction_of};
ghost use Rattle.sos_model.specs.Sound.{fits_store};
ghost use Rattle.sos_model.specs.Walk.{entered, read_as, taken_by};

use crate::copying::held_form;
use crate::fault::WalkFault;
use crate::form::Form;
use crate::found::{Found, Meeting};
use crate::resolving::{
    add_conflicts, meet, new_store, other_acts, place_in, store_in, wanted_values,
};
use crate::ticking::storage_in;
use crate::writing::in_range_value;
use quartz_expr::{Act, Env, Kept};
use quartz_tree::{Fault, NoMemory, Var};
use sqlite_items::Items;
use std::alloc::Global;

/// A scope of a term.
#[derive(Clone, Copy)]
pub(crate) struct Scope<'a> {
    pub var: u32,
    pub store: &'a Option<Vec<Kept>>,
    pub body: &'a Form,
}

/// A scope that was entered: the store from which it resolves its variable, and the values that are
/// read of it.
#[derive(Debug, Drop)]
pub(crate) struct Entry {
    pub store: Vec<Kept>,
    pub read: Vec<i64>,
}

// What is read of the given values.
fn read_values(alloc: Global, vars: &[Var], var: u32, given: &[i64]) -> Result<Vec<i64>, NoMemory>
    ensures { IfOk result (λ v. v.items ≡ read_as vars.now var given.now) }
{
    let mut all = Vec::new(alloc);
    for value in given {
        all.push(in_range_value(vars, var, *value))?;
    }
    Ok(all)
}

/// Enters a scope with the first of the values.
pub(crate) fn enter(
    alloc: Global,
    scope: Scope,
    vars: &[Var],
    given: &[i64],
) -> Result<Entry, WalkFault>
    requires sound { AreSound vars.now }
    requires within { scope.var < length vars.now }
    requires store { fits_store vars.now scope.var (option_map (λ v.
        v.items) scope.store.now) ≡ true }
    ensures store { IfOk result (λ e. e.store.items
        ≡ store_of vars.now scope.entry.var (option_map (λ v. v.items) scope.entry.store.now)) }
    ensures read { IfOk result (λ e. e.read.items
        ≡ read_as vars.now scope.entry.var (take (length e.store.items) given.now)) }
    ensures enough { IfOk result (λ e. length e.store.items ≤ length given.now) }
    ensures missing { IsErrOf result WalkFault.Missing → nat_le (taken_by vars.now scope.entry.var
        (option_map (λ v. v.items) scope.entry.store.now)) (length given.now) ≡ false }
{
    let store = store_in(alloc, vars, scope.var, scope.store)?;
    if given.len() < store.len() {
        return Err(WalkFault::Missing);
    }
    let read = read_values(alloc, vars, scope.var, &given[..store.len()])?;
    Ok(Entry { store, read })
}

// A copy of the values of a variable.
fn values_in(alloc: Global, env: &Env, var: u32) -> Result<Items<i64>, NoMemory>
    ensures { IfOk result (λ v. v ≡ elements_in env.now.values var) }
{
    match env.values.get(var as usize) {
        Some(values) => Ok(Items::from_slice(alloc, values.as_slice())?),
        None => Ok(Items::new(alloc)),
    }
}

/// Gives a variable these values, and answers those that it had.
pub(crate) fn exchange(
    alloc: Global,
    env: &mut Env,
    var: u32,
    values: &[i64],
) -> Result<Items<i64>, NoMemory>
    requires { var < length env.old.values }
    ensures before { IfOk result (λ v. v ≡ elements_in env.old.values var) }
    ensures after { OnOk result (env.new.values ≡ slice_set env.old.values var values.now) }
    ensures same { OnErr result (env.new.values ≡ env.old.values) }
{
    let before = values_in(alloc, env, var)?;
    let after = Items::from_slice(alloc, values)?;
    env.values.set(var as usize, after);
    Ok(before)
}

// What is left of a scope.
fn residual_of(
    alloc: Global,
    var: u32,
    store: &[Kept],
    ended: bool,
    residual: Form,
) -> Result<Form, NoMemory>
    ensures { IfOk result (λ f.
        term f ≡ unless_ended ended (scope_term var (Some store.now) (term residual))) }
{
    if ended {
        return Ok(Form::Nothing);
    }
    Ok(Form::Scope {
        var,
        store: Some(Vec::from_slice(alloc, store)?),
        body: Box::new(alloc, residual)?,
    })
}

// What a scope is held by: with the new store if it had one, and else the scope itself.
fn held_of(
    alloc: Global,
    scope: Scope,
    store: Vec<Kept>,
    held: Option<Form>,
) -> Result<Option<Form>, NoMemory>
    ensures { IfOk result (λ h. held_or (option_map term h) (scope_term scope.entry.var
        (option_map (λ v. v.items) scope.entry.store.now) (term scope.entry.body.now))
        ≡ held_scope scope.entry.var (option_map (λ v.
        v.items) scope.entry.store.now) (term scope.entry.body.now) store.items
        (held_or (option_map term held) (term scope.entry.body.now))) }
{
    match scope.store {
        None => Ok(None),
        Some(_) => Ok(Some(Form::Scope {
            var: scope.var,
            store: Some(store),
            body: Box::new(alloc, held_form(alloc, held, scope.body)?)?,
        })),
    }
}

// The faults of a body, and behind them the conflicts of the scope's variable.
fn with_conflicts(
    mut faults: Vec<Fault>,
    vars: &[Var],
    var: u32,
    acts: &[Act],
    values: &[i64],
) -> Result<Vec<Fault>, NoMemory>
    requires { length values.now < 2 ^ 32 }
    ensures { IfOk result (λ v. v.items ≡ faults.items
        ++ store_conflicts (declared_at vars.now var) var acts.now 0 values.now) }
{
    add_conflicts(&mut faults, place_in(vars, var), var, acts, values)?;
    Ok(faults)
}

// What a scope meets of its variable's elements, and behind it what its body met.
#[tactic(auto, using(crate::proofs::RangeLemmas::resolved_length))]
fn with_meetings(
    alloc: Global,
    vars: &[Var],
    var: u32,
    acts: &[Act],
    store: &[Kept],
    given: &[i64],
    mut met: Vec<Meeting>,
) -> Result<Vec<Meeting>, NoMemory>
    requires few { length store.now < 2 ^ 32 }
    requires same { length given.now ≡ length store.now }
    ensures { IfOk result (λ v. map met_of v.items ≡ meetings var given.now
        (values_of (resolved_store (storage_of vars.now var) var acts.now 0 store.now))
        ++ map met_of met.items) }
{
    let wanted = wanted_values(alloc, storage_in(vars, var), var, acts, store)?;
    let mut all = meet(alloc, var, given, &wanted)?;
    all.append(&mut met)?;
    Ok(all)
}

/// What a scope makes of what its body did.
pub(crate) fn leave(
    alloc: Global,
    scope: Scope,
    vars: &[Var],
    given: &[i64],
    entry: Entry,
    found: Found,
) -> Result<Found, NoMemory>
    requires few { length entry.store.items < 2 ^ 32 }
    requires same { length given.now ≡ length entry.store.items }
    requires store { entry.store.items ≡ store_of vars.now scope.var
        (option_map (λ v. v.items) scope.store.now) }
    requires read { entry.read.items ≡ read_as vars.now scope.var given.now }
    requires fits { length given.now + found.used < 2 ^ 64 }
    ensures reaction { IfOk result (λ f. reaction_of (scope_term scope.entry.var
        (option_map (λ v. v.items) scope.entry.store.now) (term scope.entry.body.now)) f
        ≡ entered vars.now scope.entry.var (option_map (λ v. v.items) scope.entry.store.now)
        (term scope.entry.body.now) given.now (reaction_of (term scope.entry.body.now) found)) }
    ensures used { IfOk result (λ f. f.used ≡ length given.now + found.used) }
{
    let var = scope.var;
    let acts = found.acts;
    let store = new_store(alloc, var, &acts, &entry.read)?;
    let faults = with_conflicts(found.faults, vars, var, &acts, &entry.read)?;
    let met = with_meetings(alloc, vars, var, &acts, &entry.store, given, found.met)?;
    Ok(Found {
        residual: residual_of(alloc, var, &store, found.ended, found.residual)?,
        held: held_of(alloc, scope, store, found.held)?,
        acts: other_acts(alloc, var, &acts)?,
        faults,
        met,
        ended: found.ended,
        used: given.len() + found.used,
    })
}
