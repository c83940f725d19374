//! How stores go through a macro step in which nothing is written.

ghost use Rattle.std.specs.Prelude.{◌≡◌, IfOk, map, option_map};
ghost use Rattle.quartz_tree.specs.Tree.{tree};
ghost use Rattle.quartz_expr.specs.Vars.{storage_of};
ghost use Rattle.quartz_expr.specs.Resolve.{absent};
ghost use Rattle.quartz_expr.specs.Tick.{advanced, tick};
ghost use Rattle.sos_model.specs.FormTerms.{term};

use crate::form::Form;
use crate::starting::copied_index;
use quartz_expr::Kept;
use quartz_tree::{Copied, NoMemory, Storage, Var};
use std::alloc::Global;

/// The storage of a variable.
pub(crate) fn storage_in(vars: &[Var], var: u32) -> Storage
    ensures { result ≡ storage_of vars.now var }
{
    match vars.get(var as usize) {
        None => Storage::Mem,
        Some(variable) => variable.decl.storage,
    }
}

// An element after a macro step in which nothing is written.
fn after_absence(storage: Storage, kept: Kept) -> Kept
    ensures { result ≡ absent storage kept }
{
    let value = match (kept.pending, storage) {
        (Some(value), _) => value,
        (None, Storage::Mem) => kept.value,
        (None, Storage::Event) => 0,
    };
    Kept {
        value,
        pending: None,
    }
}

fn advance(alloc: Global, storage: Storage, store: &[Kept]) -> Result<Vec<Kept>, NoMemory>
    ensures { IfOk result (λ v. v.items ≡ map (absent storage) store.now) }
{
    let mut all = Vec::new(alloc);
    for kept in store {
        all.push(after_absence(storage, *kept))?;
    }
    Ok(all)
}

fn advance_store(
    alloc: Global,
    vars: &[Var],
    var: u32,
    store: &Option<Vec<Kept>>,
) -> Result<Option<Vec<Kept>>, NoMemory>
    ensures { IfOk result (λ s. option_map (λ v. v.items) s
        ≡ option_map (advanced vars.now var) (option_map (λ v. v.items) store.now)) }
{
    match store {
        None => Ok(None),
        Some(store) => Ok(Some(advance(alloc, storage_in(vars, var), store)?)),
    }
}

/// The form once each store has gone through a macro step with no writes.
#[cycle(tick)]
pub(crate) fn tick_form(alloc: Global, form: &Form, vars: &[Var]) -> Result<Form, NoMemory>
    ensures { IfOk result (λ f. term f ≡ tick vars.now (term form.now)) }
{
    match form {
        Form::Nothing => Ok(Form::Nothing),
        Form::Pause => Ok(Form::Pause),
        Form::Write {
            var,
            index,
            value,
            delayed,
            place,
            target_place,
        } => Ok(Form::Write {
            var: *var,
            index: copied_index(alloc, index)?,
            value: value.copied(alloc)?,
            delayed: *delayed,
            place: *place,
            target_place: *target_place,
        }),
        Form::If { cond, yes, no } => Ok(Form::If {
            cond: cond.copied(alloc)?,
            yes: Box::new(alloc, tick_form(alloc, yes, vars)?)?,
            no: Box::new(alloc, tick_form(alloc, no, vars)?)?,
        }),
        Form::Seq(parts) => Ok(Form::Seq(tick_forms(alloc, parts, vars)?)),
        Form::Par(parts) => Ok(Form::Par(tick_forms(alloc, parts, vars)?)),
        Form::Loop { body, cond } => Ok(Form::Loop {
            body: Box::new(alloc, tick_form(alloc, body, vars)?)?,
            cond: cond.copied(alloc)?,
        }),
        Form::Guard {
            abort,
            weak,
            immediate,
            body,
            cond,
        } => Ok(Form::Guard {
            abort: *abort,
            weak: *weak,
            immediate: *immediate,
            body: Box::new(alloc, tick_form(alloc, body, vars)?)?,
            cond: cond.copied(alloc)?,
        }),
        Form::Scope { var, store, body } => Ok(Form::Scope {
            var: *var,
            store: advance_store(alloc, vars, *var, store)?,
            body: Box::new(alloc, tick_form(alloc, body, vars)?)?,
        }),
    }
}

#[cycle(tick)]
fn tick_forms(alloc: Global, parts: &[Form], vars: &[Var]) -> Result<Vec<Form>, NoMemory>
    ensures { IfOk result (λ v. map term v.items ≡ map (λ f. tick vars.now (term f)) parts.now) }
{
    let mut all = Vec::new(alloc);
    for part in parts {
        all.push(tick_form(alloc, part, vars)?)?;
    }
    Ok(all)
}
