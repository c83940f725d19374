//! What a scope's store and its body's writes give.

ghost use Rattle.std.specs.Prelude.{◌≡◌, ◌<◌, ◌≤◌, ◌^◌, ◌++◌, IfOk, false, true, map, option_map, length};
ghost use Rattle.quartz_expr.specs.Typed.{AreSound};
ghost use Rattle.quartz_expr.specs.Vars.{count_of, declared_at, start_of};
ghost use Rattle.quartz_expr.specs.Resolve.{conflicts, differ, differs_from, first_of_all, fresh_store, given_store, is_write_of, others, resolved, resolved_store, store_conflicts, values_of, writes_of};
ghost use Rattle.quartz_expr.specs.React.{meetings, store_of};
ghost use Rattle.sos_model.specs.Found.{met_of};

use crate::faulting::{add_fault, element_count};
use crate::found::Meeting;
use quartz_expr::{Act, Kept};
use quartz_tree::{Fault, Kind, NoMemory, Place, Storage, Var};
use std::alloc::Global;

// Whether an act writes that element of the variable, in this step or in the next.
fn is_write(act: &Act, var: u32, element: u32, delayed: bool) -> bool
    ensures { result ≡ is_write_of var element delayed act.now }
{
    act.var == var && act.element == element && act.delayed == delayed
}

// The first value that the acts write to an element.
fn first_write(acts: &[Act], var: u32, element: u32, delayed: bool) -> Option<i64>
    ensures { result ≡ first_of_all (writes_of var element delayed acts.now) }
{
    for act in acts {
        if is_write(act, var, element, delayed) {
            return Some(act.value);
        }
    }
    None
}

// Whether the acts write another value than this one to an element.
fn is_contradicted(acts: &[Act], var: u32, element: u32, delayed: bool, value: i64) -> bool
    ensures { result ≡ differs_from value (writes_of var element delayed acts.now) }
{
    for act in acts {
        if is_write(act, var, element, delayed) && act.value != value {
            return true;
        }
    }
    false
}

// Whether two acts write different values to an element in the next step.
#[tactic(auto, using(crate::proofs::ResolveLemmas::differ_is, crate::proofs::ResolveLemmas::none_differ))]
fn do_next_differ(acts: &[Act], var: u32, element: u32) -> bool
    ensures { result ≡ differ (writes_of var element true acts.now) }
{
    match first_write(acts, var, element, true) {
        Some(value) => is_contradicted(acts, var, element, true, value),
        None => false,
    }
}

// The value of an element.
fn resolve(storage: Storage, kept: Kept, acts: &[Act], var: u32, element: u32) -> i64
    ensures { result ≡ resolved storage kept (writes_of var element false acts.now) }
{
    if let Some(value) = kept.pending {
        return value;
    }
    match (first_write(acts, var, element, false), storage) {
        (Some(value), _) => value,
        (None, Storage::Mem) => kept.value,
        (None, Storage::Event) => 0,
    }
}

// How many elements a variable has.
#[tactic(auto, using(crate::proofs::WriteLemmas::few_elements))]
fn count_in(vars: &[Var], var: u32) -> usize
    requires { AreSound vars.now }
    ensures count { result ≡ count_of vars.now var }
    ensures few { result ≤ 64 }
{
    element_count(vars, var) as usize
}

fn start_in(vars: &[Var], var: u32) -> i64
    ensures { result ≡ start_of vars.now var }
{
    match vars.get(var as usize) {
        Some(variable) => variable.start,
        None => 0,
    }
}

/// The place of a variable's name in its declaration.
pub(crate) fn place_in(vars: &[Var], var: u32) -> Place
    ensures { result ≡ declared_at vars.now var }
{
    match vars.get(var as usize) {
        Some(variable) => variable.decl.place,
        None => Place { line: 0, col: 0 },
    }
}

// The store with which a scope starts.
fn fresh(alloc: Global, vars: &[Var], var: u32) -> Result<Vec<Kept>, NoMemory>
    requires { AreSound vars.now }
    ensures { IfOk result (λ s. s.items ≡ fresh_store vars.now var) }
{
    let kept = Kept {
        value: start_in(vars, var),
        pending: None,
    };
    Ok(vec![in alloc; kept; count_in(vars, var)]?)
}

/// The store from which a scope resolves its variable: its own, or a fresh one.
pub(crate) fn store_in(
    alloc: Global,
    vars: &[Var],
    var: u32,
    store: &Option<Vec<Kept>>,
) -> Result<Vec<Kept>, NoMemory>
    requires { AreSound vars.now }
    ensures { IfOk result (λ s.
        s.items ≡ store_of vars.now var (option_map (λ v. v.items) store.now)) }
{
    match store {
        Some(store) => Ok(Vec::from_slice(alloc, store)?),
        None => fresh(alloc, vars, var),
    }
}

/// The values that a store and the acts resolve to.
pub(crate) fn wanted_values(
    alloc: Global,
    storage: Storage,
    var: u32,
    acts: &[Act],
    store: &[Kept],
) -> Result<Vec<i64>, NoMemory>
    requires { length store.now < 2 ^ 32 }
    ensures { IfOk result (λ v.
        v.items ≡ values_of (resolved_store storage var acts.now 0 store.now)) }
{
    let mut all = Vec::new(alloc);
    for (element, kept) in store.iter().enumerate() {
        all.push(resolve(storage, *kept, acts, var, element as u32))?;
    }
    Ok(all)
}

/// The store whose elements have these values.
pub(crate) fn new_store(
    alloc: Global,
    var: u32,
    acts: &[Act],
    values: &[i64],
) -> Result<Vec<Kept>, NoMemory>
    requires { length values.now < 2 ^ 32 }
    ensures { IfOk result (λ s. s.items ≡ given_store var acts.now 0 values.now) }
{
    let mut all = Vec::new(alloc);
    for (element, value) in values.iter().enumerate() {
        all.push(Kept {
            value: *value,
            pending: first_write(acts, var, element as u32, true),
        })?;
    }
    Ok(all)
}

// Adds the conflicts of an element that has that value.
fn add_element_conflicts(
    all: &mut Vec<Fault>,
    place: Place,
    acts: &[Act],
    var: u32,
    element: u32,
    value: i64,
) -> Result<(), NoMemory>
    ensures { IfOk result (λ _. all.new.items ≡ all.old.items ++ conflicts place value
        (writes_of var element false acts.now) (writes_of var element true acts.now)) }
{
    let contradicted = is_contradicted(acts, var, element, false, value);
    add_fault(all, contradicted, Kind::Conflict, place)?;
    let differ = do_next_differ(acts, var, element);
    add_fault(all, differ, Kind::Conflict, place)
}

/// Adds the conflicts of a variable whose elements have these values.
pub(crate) fn add_conflicts(
    all: &mut Vec<Fault>,
    place: Place,
    var: u32,
    acts: &[Act],
    values: &[i64],
) -> Result<(), NoMemory>
    requires { length values.now < 2 ^ 32 }
    ensures { IfOk result (λ _. all.new.items ≡ all.old.items
        ++ store_conflicts place var acts.now 0 values.now) }
{
    for (element, value) in values.iter().enumerate() {
        add_element_conflicts(all, place, acts, var, element as u32, *value)?;
    }
    Ok(())
}

/// The given values, each with the one that is wanted.
pub(crate) fn meet(
    alloc: Global,
    var: u32,
    given: &[i64],
    wanted: &[i64],
) -> Result<Vec<Meeting>, NoMemory>
    requires { length given.now ≡ length wanted.now }
    ensures { IfOk result (λ v. map met_of v.items ≡ meetings var given.now wanted.now) }
{
    let mut all = Vec::new(alloc);
    for (at, value) in given.iter().enumerate() {
        all.push(Meeting {
            var,
            given: *value,
            wanted: wanted[at],
        })?;
    }
    Ok(all)
}

/// The acts on other variables.
pub(crate) fn other_acts(alloc: Global, var: u32, acts: &[Act]) -> Result<Vec<Act>, NoMemory>
    ensures { IfOk result (λ v. v.items ≡ others var acts.now) }
{
    let mut all = Vec::new(alloc);
    for act in acts {
        if act.var != var {
            all.push(*act)?;
        }
    }
    Ok(all)
}
