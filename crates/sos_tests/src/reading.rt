//! Texts as terms, and the macro steps of the rows.

use quartz_expr::Env;
use quartz_lexer::lex;
use quartz_names::{has_call, resolve};
use quartz_parser::parse;
use quartz_tree::{Flow, Module, Var};
use quartz_types::{Typed, check};
use sos_model::{ReactFault, Reaction, Term, react_with};
use sos_terms::{fits, start};
use sqlite_items::Items;
use std::alloc::Global;
use std::test::Fail;

/// A macro step: the elements of the inputs, those of the outputs, and the values for the scopes
/// that are met.
#[derive(Debug, Drop)]
pub(crate) struct Step {
    pub inputs: Vec<i64>,
    pub outputs: Vec<i64>,
    pub scopes: Vec<i64>,
}

pub(crate) fn numbers(alloc: Global, text: &str) -> Result<Vec<i64>, Fail> {
    let mut all = Vec::new(alloc);
    for word in text.split_whitespace() {
        all.push(word.parse::<i64>()?)?;
    }
    Ok(all)
}

/// Reads a macro step: its three lists of numbers, with `/` between.
pub(crate) fn step_of(alloc: Global, text: &str) -> Result<Step, Fail> {
    let Some((inputs, others)) = text.split_once('/') else {
        return Err(Fail::new("a step has three lists"));
    };
    let Some((outputs, scopes)) = others.split_once('/') else {
        return Err(Fail::new("a step has three lists"));
    };
    Ok(Step {
        inputs: numbers(alloc, inputs)?,
        outputs: numbers(alloc, outputs)?,
        scopes: numbers(alloc, scopes)?,
    })
}

// The module of a text.
fn module_of(alloc: Global, text: &[u8]) -> Result<Module, Fail> {
    let tokens = lex(alloc, text)?;
    let module = parse(alloc, &tokens, text)?;
    Ok(module)
}

// The typed module of a module without calls.
fn judged(alloc: Global, module: &Module) -> Result<Typed, Fail> {
    if has_call(&module.body) {
        return Err(Fail::new("the module has a call"));
    }
    let resolved = resolve(alloc, module)?;
    let typed = check(alloc, resolved)?;
    Ok(typed)
}

fn typed(alloc: Global, text: &[u8]) -> Result<Typed, Fail> {
    let module = module_of(alloc, text)?;
    judged(alloc, &module)
}

/// The term of a module's text.
pub(crate) fn started(alloc: Global, text: &[u8]) -> Result<Term, Fail> {
    let module = typed(alloc, text)?;
    let term = start(alloc, &module)?;
    Ok(term)
}

/// How many elements a variable has.
pub(crate) fn element_count(var: &Var) -> u32 {
    var.decl.ty.len.unwrap_or(1).min(64) as u32
}

// The elements of a variable from that place in the values on.
fn elements(alloc: Global, var: &Var, values: &[i64], from: usize) -> Result<Items<i64>, Fail> {
    let mut all = Items::new(alloc);
    for value in values.iter().skip(from).take(element_count(var) as usize) {
        all.push(*value)?;
    }
    Ok(all)
}

// The elements of a variable that are each at its start value.
fn start_elements(alloc: Global, var: &Var) -> Result<Items<i64>, Fail> {
    Ok(Items::from_vec(vec![in alloc; var.start; element_count(var) as usize]?))
}

/// The environment of a macro step. Locals are at their start values.
pub(crate) fn environment(alloc: Global, vars: &[Var], step: &Step) -> Result<Env, Fail> {
    let mut inputs_read = 0usize;
    let mut outputs_read = 0usize;
    let mut values = Items::new(alloc);
    for var in vars {
        let given = match var.decl.flow {
            Flow::Input => elements(alloc, var, &step.inputs, inputs_read)?,
            Flow::Output => elements(alloc, var, &step.outputs, outputs_read)?,
            Flow::Inner => start_elements(alloc, var)?,
        };
        values.push(given)?;
        match var.decl.flow {
            Flow::Input => inputs_read = inputs_read.saturating_add(element_count(var) as usize),
            Flow::Output => outputs_read = outputs_read.saturating_add(element_count(var) as usize),
            Flow::Inner => {}
        }
    }
    Ok(Env { values })
}

/// What a term answers in a macro step.
pub(crate) fn reacted(
    alloc: Global,
    term: &Term,
    step: &Step,
) -> Result<Result<Reaction, ReactFault>, Fail> {
    let env = environment(alloc, term.vars(), step)?;
    if !fits(term.vars(), &env) {
        return Err(Fail::new("the environment does not fit the variables"));
    }
    Ok(react_with(alloc, term, &env, &step.scopes))
}
