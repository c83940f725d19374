//! Forms as short texts.

use sos_model::{Form, Kept};
use std::alloc::Global;
use std::test::Fail;

fn put_kept(alloc: Global, out: &mut String, kept: Kept) -> Result<(), Fail> {
    out.push_str(&format!(in alloc; " {}", kept.value)?)?;
    if let Some(pending) = kept.pending {
        out.push_str(&format!(in alloc; "'{pending}")?)?;
    }
    Ok(())
}

// What a store keeps of each element: its value, and behind a ' its pending value if there is one.
fn put_store(alloc: Global, out: &mut String, store: &Option<Vec<Kept>>) -> Result<(), Fail> {
    if let Some(store) = store {
        out.push_str(" =")?;
        for kept in store {
            put_kept(alloc, out, *kept)?;
        }
    }
    Ok(())
}

fn put_guard(out: &mut String, abort: bool, weak: bool, immediate: bool) -> Result<(), Fail> {
    if weak {
        out.push_str("weak ")?;
    }
    if immediate {
        out.push_str("immediate ")?;
    }
    out.push_str(if abort { "abort " } else { "suspend " })?;
    Ok(())
}

/// Puts a form without its expressions and places: `-` is Nothing, `w1` a write of variable 1 and
/// `n1` one in the next step, `[a b]` a sequence, `(a | b)` a parallel, `{1: a}` a scope of
/// variable 1, and `{1 = 5'6: a}` one whose store keeps the value 5, with 6 pending.
#[cycle(put)]
pub(crate) fn put_form(alloc: Global, out: &mut String, form: &Form) -> Result<(), Fail> {
    match form {
        Form::Nothing => Ok(out.push_str("-")?),
        Form::Pause => Ok(out.push_str("pause")?),
        Form::Write { var, delayed, .. } => {
            out.push_str(if *delayed { "n" } else { "w" })?;
            Ok(out.push_str(&format!(in alloc; "{var}")?)?)
        }
        Form::If { yes, no, .. } => {
            out.push_str("if(")?;
            put_form(alloc, out, yes)?;
            out.push_str(", ")?;
            put_form(alloc, out, no)?;
            Ok(out.push_str(")")?)
        }
        Form::Seq(parts) => {
            out.push_str("[")?;
            put_forms(alloc, out, parts, " ")?;
            Ok(out.push_str("]")?)
        }
        Form::Par(parts) => {
            out.push_str("(")?;
            put_forms(alloc, out, parts, " | ")?;
            Ok(out.push_str(")")?)
        }
        Form::Loop { body, .. } => {
            out.push_str("loop ")?;
            put_form(alloc, out, body)
        }
        Form::Guard {
            abort,
            weak,
            immediate,
            body,
            ..
        } => {
            put_guard(out, *abort, *weak, *immediate)?;
            put_form(alloc, out, body)
        }
        Form::Scope { var, store, body } => {
            out.push_str(&format!(in alloc; "{{{var}")?)?;
            put_store(alloc, out, store)?;
            out.push_str(": ")?;
            put_form(alloc, out, body)?;
            Ok(out.push_str("}")?)
        }
    }
}

#[cycle(put)]
fn put_forms(alloc: Global, out: &mut String, parts: &[Form], between: &str) -> Result<(), Fail> {
    let mut first = true;
    for part in parts {
        if !first {
            out.push_str(between)?;
        }
        first = false;
        put_form(alloc, out, part)?;
    }
    Ok(())
}
