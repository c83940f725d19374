//! Two readings of a module, step by step: its cells, and the walk of its term with the values that
//! the cells give the outputs and the copies of locals. They agree on every macro step.

ghost use Rattle.aif_cells.specs.Built.{all_defined};
ghost use Rattle.aif_cells.specs.Order.{IsOrder};

use crate::outputs::{Output, outputs};
use crate::reading::{Step, numbers, reacted};
use crate::runs::{after_step, agree};
use aif_cells::{Aif, Made};
use cell_values::{evaluate, least_raised, next_registers};
use quartz_build::{Built, build, front};
use quartz_expr::lesser_of;
use quartz_tree::{Fault, Flow, Kind, Place};
use sos_model::{Reaction, Term};
use sos_terms::start;
use std::alloc::Global;
use std::test::Fail;

// How many cells stand behind the value cell of a scalar's copy: for the new flag, the new pending
// value, and the conflicts of its now-writes and of its delayed ones.
fn closing_cells(aif: &Aif, made: Made, copy: u32) -> usize {
    let mut now = 0usize;
    let mut next = 0usize;
    for action in aif.actions.as_slice() {
        if action.var == made.var && action.copy == copy {
            if action.delayed {
                next = next.saturating_add(1);
            } else {
                now = now.saturating_add(1);
            }
        }
    }
    let is_delayed = match aif.vars.get(made.var as usize) {
        Some(var) => var.delayed,
        None => false,
    };
    let arrives = usize::from(made.stored && is_delayed);
    let now_conflict = usize::from(now >= 1 && now.saturating_add(arrives) >= 2);
    let flag = usize::from(next >= 2);
    next.min(1) + flag + now_conflict + usize::from(next >= 2)
}

// The cell with so many cells of one place before it.
fn cell_at_place(aif: &Aif, place: Place, before: usize) -> Option<u32> {
    let mut left = before;
    let mut number = 0u32;
    for cell in aif.cells.as_slice() {
        if cell.place == place {
            if left == 0 {
                return Some(number);
            }
            left -= 1;
        }
        number = number.saturating_add(1);
    }
    None
}

// The value cell of a copy: a variable's cells are, copy after copy, the value cell and those of
// the closing.
fn value_cell(aif: &Aif, at: usize, made: Made) -> Option<u32> {
    let mut copy = 0u32;
    let mut before = 0usize;
    for earlier in aif.made.as_slice().iter().take(at) {
        if earlier.var == made.var {
            before = before
                .saturating_add(closing_cells(aif, *earlier, copy))
                .saturating_add(1);
            copy = copy.saturating_add(1);
        }
    }
    match aif.vars.get(made.var as usize) {
        Some(var) if var.decl.flow == Flow::Inner => cell_at_place(aif, var.decl.place, before),
        _ => None,
    }
}

// The values of the copies of locals, in the order in which the copies were made.
fn copies(alloc: Global, aif: &Aif, cells: &[i64]) -> Result<Vec<i64>, Fail> {
    let mut all = Vec::new(alloc);
    for (at, made) in aif.made.as_slice().iter().enumerate() {
        if let Some(cell) = value_cell(aif, at, *made) {
            all.push(cells.get(cell as usize).copied().unwrap_or(0))?;
        }
    }
    Ok(all)
}

// The values that the bits of a number choose.
fn chosen(alloc: Global, values: &[i64], bits: u32) -> Result<Vec<i64>, Fail> {
    let mut all = Vec::new(alloc);
    let mut left = bits;
    for value in values {
        if left % 2 == 1 {
            all.push(*value)?;
        }
        left /= 2;
    }
    Ok(all)
}

fn copied(alloc: Global, values: &[i64]) -> Result<Vec<i64>, Fail> {
    let mut all = Vec::new(alloc);
    for value in values {
        all.push(*value)?;
    }
    Ok(all)
}

// The reaction of a term with the values of its active copies, which are some of the copies in
// their order.
fn reaction_with(
    alloc: Global,
    term: &Term,
    inputs: &[i64],
    outputs: &[i64],
    copies: &[i64],
) -> Result<Reaction, Fail> {
    for bits in 0..1024u32 {
        let step = Step {
            inputs: copied(alloc, inputs)?,
            outputs: copied(alloc, outputs)?,
            scopes: chosen(alloc, copies, bits)?,
        };
        if let Ok(reaction) = reacted(alloc, term, &step)? {
            return Ok(reaction);
        }
    }
    Err(Fail::new("the walk takes the values of no copies"))
}

fn least_of(faults: &[Fault]) -> Option<Fault> {
    let mut least = None;
    for fault in faults {
        least = lesser_of(least, Some(*fault));
    }
    least
}

// The least fault of a macro step: of its reaction, and of the outputs whose writes contradict one
// another.
fn least_fault(reaction: &Reaction, outputs: &[Output]) -> Option<Fault> {
    let mut least = least_of(&reaction.faults);
    for output in outputs {
        if output.conflict {
            let fault = Fault {
                place: output.place,
                kind: Kind::Conflict,
            };
            least = lesser_of(least, Some(fault));
        }
    }
    least
}

fn values_of(alloc: Global, numbers: &[u32], cells: &[i64]) -> Result<Vec<i64>, Fail> {
    let mut all = Vec::new(alloc);
    for number in numbers {
        all.push(cells.get(*number as usize).copied().unwrap_or(0))?;
    }
    Ok(all)
}

fn initial_registers(alloc: Global, aif: &Aif) -> Result<Vec<i64>, Fail> {
    let mut all = Vec::new(alloc);
    for register in aif.registers.as_slice() {
        all.push(register.initial)?;
    }
    Ok(all)
}

// The values of the cells in a macro step.
fn computed(
    alloc: Global,
    built: &Built,
    inputs: &[i64],
    registers: &[i64],
) -> Result<Vec<i64>, Fail>
    requires order { IsOrder (all_defined built.now.aif.cells) built.now.order.cells }
{
    let mut cells = vec![in alloc; 0; built.aif.cells.len()]?;
    evaluate(&built.aif, &built.order, inputs, registers, &mut cells);
    Ok(cells)
}

fn next_values(
    alloc: Global,
    aif: &Aif,
    inputs: &[i64],
    registers: &[i64],
    cells: &[i64],
) -> Result<Vec<i64>, Fail> {
    let mut next = Vec::with_capacity(alloc, aif.registers.len())?;
    next_registers(aif, inputs, registers, cells, &mut next);
    Ok(next)
}

/// What goes on from one macro step to the next in both readings.
#[derive(Drop)]
struct State {
    registers: Vec<i64>,
    term: Term,
    outputs: Vec<Output>,
}

// The next state of both readings, or none where both have the same least fault.
fn step(alloc: Global, built: &Built, before: State, inputs: &[i64]) -> Result<Option<State>, Fail>
    requires order { IsOrder (all_defined built.now.aif.cells) built.now.order.cells }
{
    let aif = &built.aif;
    let cells = computed(alloc, built, inputs, &before.registers)?;
    let shown = values_of(alloc, aif.outputs.as_slice(), &cells)?;
    let copies = copies(alloc, aif, &cells)?;
    let reaction = reaction_with(alloc, &before.term, inputs, &shown, &copies)?;
    let outputs = after_step(alloc, &before.outputs, &reaction.writes)?;
    let fault = least_fault(&reaction, &outputs);
    if !agree(&outputs, &shown) || fault != least_raised(aif, &cells) {
        return Err(Fail::new("the two readings of a step differ"));
    }
    if fault.is_some() {
        return Ok(None);
    }
    let registers = next_values(alloc, aif, inputs, &before.registers, &cells)?;
    Ok(Some(State {
        registers,
        term: reaction.residual,
        outputs,
    }))
}

// Both readings of a module that was built, over lines of inputs, up to the first fault.
fn run(alloc: Global, built: &Built, first: State, lines: &str) -> Result<(), Fail>
    requires order { IsOrder (all_defined built.now.aif.cells) built.now.order.cells }
{
    let mut state = first;
    for line in lines.lines() {
        let inputs = numbers(alloc, line)?;
        match step(alloc, built, state, &inputs)? {
            Some(next) => state = next,
            None => return Ok(()),
        }
    }
    Ok(())
}

// Both readings of a text.
fn read_twice(alloc: Global, text: &[u8], lines: &str) -> Result<(), Fail> {
    let typed = front(alloc, text)?;
    let term = start(alloc, &typed)?;
    let outputs = outputs(alloc, term.vars())?;
    let built = build(alloc, text, false, false)?;
    let registers = initial_registers(alloc, &built.aif)?;
    let first = State {
        registers,
        term,
        outputs,
    };
    run(alloc, &built, first, lines)
}

const FORMS: [&str; 8] = [
    "abort",
    "immediate abort",
    "weak abort",
    "weak immediate abort",
    "suspend",
    "immediate suspend",
    "weak suspend",
    "weak immediate suspend",
];

// The lines of `c` and `d`.
const LINES: &str = "0 1\n0 0\n0 1\n0 0\n1 0\n0 0\n0 0\n1 1\n1 0\n0 1\n0 1\n0 0\n";

// A preemption in another, around a local that may live twice in a step and a delayed write.
fn nested(alloc: Global, outer: &str, inner: &str) -> Result<String, Fail> {
    Ok(format!(in alloc;
        "module M(event ?c, ?d, !s, !t, nat{{8}} !n, !u) {{ loop {{ {outer} loop {{ nat{{8}} k; next(k) = (k + 3) % 8; {inner} loop {{ emit t; next(n) = (n + 1) % 8; pause; }} when(d); u = k; pause; u = (k + 1) % 8; }} when(c); emit s; pause; }} }}"
    )?)
}

fn read_within(alloc: Global, outer: &str) -> Result<(), Fail> {
    for inner in &FORMS {
        let text = nested(alloc, outer, inner)?;
        read_twice(alloc, text.as_bytes(), LINES)?;
    }
    Ok(())
}

#[test]
fn two_readings(rt: HostRuntime) -> Result<(), Fail> {
    for outer in &FORMS {
        read_within(rt.alloc(), outer)?;
    }
    Ok(())
}
