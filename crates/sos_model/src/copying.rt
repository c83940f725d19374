//! Copies of forms.

ghost use Rattle.std.specs.Prelude.{◌≡◌, IfOk, map, option_map};
ghost use Rattle.sos_model.specs.FormTerms.{term};
ghost use Rattle.sos_model.specs.Found.{held_or};

use crate::form::Form;
use crate::starting::copied_index;
use quartz_expr::Kept;
use quartz_tree::{Copied, NoMemory};
use std::alloc::Global;

fn copied_store(alloc: Global, store: &Option<Vec<Kept>>) -> Result<Option<Vec<Kept>>, NoMemory>
    ensures { IfOk result (λ s. option_map (λ v. v.items) s ≡ option_map (λ v. v.items) store.now) }
{
    match store {
        None => Ok(None),
        Some(store) => Ok(Some(Vec::from_slice(alloc, store)?)),
    }
}

/// The copy of a form.
#[cycle(copy)]
pub(crate) fn copy_form(alloc: Global, form: &Form) -> Result<Form, NoMemory>
    ensures { IfOk result (λ f. term f ≡ term form.now) }
{
    match form {
        Form::Nothing => Ok(Form::Nothing),
        Form::Pause => Ok(Form::Pause),
        Form::Write {
            var,
            index,
            value,
            delayed,
            place,
            target_place,
        } => Ok(Form::Write {
            var: *var,
            index: copied_index(alloc, index)?,
            value: value.copied(alloc)?,
            delayed: *delayed,
            place: *place,
            target_place: *target_place,
        }),
        Form::If { cond, yes, no } => Ok(Form::If {
            cond: cond.copied(alloc)?,
            yes: Box::new(alloc, copy_form(alloc, yes)?)?,
            no: Box::new(alloc, copy_form(alloc, no)?)?,
        }),
        Form::Seq(parts) => Ok(Form::Seq(copied_all(alloc, parts)?)),
        Form::Par(parts) => Ok(Form::Par(copied_all(alloc, parts)?)),
        Form::Loop { body, cond } => Ok(Form::Loop {
            body: Box::new(alloc, copy_form(alloc, body)?)?,
            cond: cond.copied(alloc)?,
        }),
        Form::Guard {
            abort,
            weak,
            immediate,
            body,
            cond,
        } => Ok(Form::Guard {
            abort: *abort,
            weak: *weak,
            immediate: *immediate,
            body: Box::new(alloc, copy_form(alloc, body)?)?,
            cond: cond.copied(alloc)?,
        }),
        Form::Scope { var, store, body } => Ok(Form::Scope {
            var: *var,
            store: copied_store(alloc, store)?,
            body: Box::new(alloc, copy_form(alloc, body)?)?,
        }),
    }
}

/// The copies of forms, in order.
#[cycle(copy)]
pub(crate) fn copied_all(alloc: Global, parts: &[Form]) -> Result<Vec<Form>, NoMemory>
    ensures { IfOk result (λ v. map term v.items ≡ map term parts.now) }
{
    let mut all = Vec::new(alloc);
    for part in parts {
        all.push(copy_form(alloc, part)?)?;
    }
    Ok(all)
}

/// What a form is held by: what was found, or a copy of itself.
pub(crate) fn held_form(alloc: Global, held: Option<Form>, form: &Form) -> Result<Form, NoMemory>
    ensures { IfOk result (λ f. term f ≡ held_or (option_map term held) (term form.now)) }
{
    match held {
        Some(held) => Ok(held),
        None => copy_form(alloc, form),
    }
}
