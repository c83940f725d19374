//! The forms of statements.

ghost use Rattle.std.specs.Prelude.{◌≡◌, IfOk, map, option_map};
ghost use Rattle.quartz_tree.specs.Tree.{tree};
ghost use Rattle.quartz_tree.specs.Kernel.{kernel};
ghost use Rattle.quartz_expr.specs.Terms.{term_of};
ghost use Rattle.sos_model.specs.FormTerms.{term};

use crate::form::Form;
use quartz_tree::{Copied, Expr, NoMemory, Stmt};
use std::alloc::Global;

/// The copy of an index that may be left out.
pub(crate) fn copied_index(
    alloc: Global,
    index: &Option<Expr<u32>>,
) -> Result<Option<Expr<u32>>, NoMemory>
    ensures { IfOk result (λ i. option_map tree i ≡ option_map tree index.now) }
{
    match index {
        None => Ok(None),
        Some(index) => Ok(Some(index.copied(alloc)?)),
    }
}

/// The form of a statement: its scopes have no store.
#[cycle(start)]
pub(crate) fn start_form(alloc: Global, body: &Stmt) -> Result<Form, NoMemory>
    ensures { IfOk result (λ f. term f ≡ term_of (kernel body.now)) }
{
    match body {
        Stmt::Nothing => Ok(Form::Nothing),
        Stmt::Pause => Ok(Form::Pause),
        Stmt::Write {
            var,
            index,
            value,
            delayed,
            place,
            target_place,
        } => Ok(Form::Write {
            var: *var,
            index: copied_index(alloc, index)?,
            value: value.copied(alloc)?,
            delayed: *delayed,
            place: *place,
            target_place: *target_place,
        }),
        Stmt::Choose { cond, yes, no } => Ok(Form::If {
            cond: cond.copied(alloc)?,
            yes: Box::new(alloc, start_form(alloc, yes)?)?,
            no: Box::new(alloc, start_form(alloc, no)?)?,
        }),
        Stmt::Seq(parts) => Ok(Form::Seq(start_forms(alloc, parts)?)),
        Stmt::Par(parts) => Ok(Form::Par(start_forms(alloc, parts)?)),
        Stmt::Loop { body, cond, .. } => Ok(Form::Loop {
            body: Box::new(alloc, start_form(alloc, body)?)?,
            cond: cond.copied(alloc)?,
        }),
        Stmt::Guard {
            abort,
            weak,
            immediate,
            body,
            cond,
        } => Ok(Form::Guard {
            abort: *abort,
            weak: *weak,
            immediate: *immediate,
            body: Box::new(alloc, start_form(alloc, body)?)?,
            cond: cond.copied(alloc)?,
        }),
        Stmt::Local { var, body } => Ok(Form::Scope {
            var: *var,
            store: None,
            body: Box::new(alloc, start_form(alloc, body)?)?,
        }),
    }
}

#[cycle(start)]
fn start_forms(alloc: Global, parts: &[Stmt]) -> Result<Vec<Form>, NoMemory>
    ensures { IfOk result (λ v. map term v.items ≡ map (λ s. term_of (kernel s)) parts.now) }
{
    let mut all = Vec::new(alloc);
    for part in parts {
        all.push(start_form(alloc, part)?)?;
    }
    Ok(all)
}
