//! The outputs of a run, and what the writes of a macro step make of them.

use crate::reading::element_count;
use quartz_tree::{Flow, Place, Storage, Var};
use sos_model::{Act, Kept};
use std::alloc::Global;
use std::test::Fail;

/// What an element of an output keeps of its value, and whether its writes contradict one another.
#[derive(Clone, Copy)]
pub(crate) struct Output {
    pub var: u32,
    pub element: u32,
    pub place: Place,
    pub storage: Storage,
    pub kept: Kept,
    pub conflict: bool,
}

// Adds the elements of an output, each at its start value.
fn add_elements(all: &mut Vec<Output>, number: u32, var: &Var) -> Result<(), Fail> {
    for element in 0..element_count(var) {
        all.push(Output {
            var: number,
            element,
            place: var.decl.place,
            storage: var.decl.storage,
            kept: Kept {
                value: var.start,
                pending: None,
            },
            conflict: false,
        })?;
    }
    Ok(())
}

/// The elements of the outputs, each at its start value.
pub(crate) fn outputs(alloc: Global, vars: &[Var]) -> Result<Vec<Output>, Fail> {
    let mut all = Vec::new(alloc);
    let mut number = 0u32;
    for var in vars {
        if var.decl.flow == Flow::Output {
            add_elements(&mut all, number, var)?;
        }
        number = number.saturating_add(1);
    }
    Ok(all)
}

// What an element has in a macro step in which nothing writes it.
fn absent(output: Output) -> i64 {
    match output.storage {
        Storage::Mem => output.kept.value,
        Storage::Event => 0,
    }
}

/// An element after the writes of a macro step.
pub(crate) fn after_writes(output: Output, writes: &[Act]) -> Output {
    let mut now = output.kept.pending;
    let mut next = None;
    let mut conflict = false;
    for act in writes {
        if act.var == output.var && act.element == output.element {
            let first = if act.delayed { next } else { now };
            match (first, act.delayed) {
                (Some(value), _) => conflict = conflict || value != act.value,
                (None, true) => next = Some(act.value),
                (None, false) => now = Some(act.value),
            }
        }
    }
    Output {
        var: output.var,
        element: output.element,
        place: output.place,
        storage: output.storage,
        kept: Kept {
            value: now.unwrap_or(absent(output)),
            pending: next,
        },
        conflict,
    }
}
