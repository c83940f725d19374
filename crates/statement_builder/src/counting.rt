//! How many labels a statement has, and how many registers the variables of its scopes have.

ghost use Rattle.std.specs.Prelude.{◌≡◌, ◌+◌, ◌<◌, length, map, IfOk};
ghost use Rattle.quartz_tree.specs.Kernel.{kernel, kernels};
ghost use Rattle.quartz_expr.specs.Terms.{term_of, terms_of};
ghost use Rattle.quartz_expr.specs.Vars.{count_of};
ghost use Rattle.absence_reaction.specs.Closing.{registers_each as plain_registers_each};
ghost use Rattle.statement_cells.specs.Labels.{labels, labels_all, registers, registers_all, scope_registers as plain_scope_registers, shape_in};
ghost use Rattle.statement_cells.specs.Whole.{variable_registers as plain_variable_registers};
ghost use Rattle.statement_builder.specs.Chains.{chain_registers as plain_chain_registers, is_scope as plain_is_scope};

use crate::gates::plus;
use quartz_names::unscoped;
use quartz_tree::{NoMemory, Stmt, Var};

/// How many labels a statement has, and how many registers the variables of its scopes have.
#[derive(Clone, Copy, Debug, PartialEq, Eq)]
pub struct Counts {
    pub labels: u32,
    pub registers: u32,
}

/// Where the labels of a statement begin, and the registers of its scopes.
#[derive(Clone, Copy, Debug, PartialEq, Eq)]
pub struct Numbers {
    pub label: u32,
    pub register: u32,
}

impl Numbers {
    /// Where those of the next statement begin.
    pub(crate) fn behind(self, stmt: &Stmt, vars: &[Var]) -> Result<Numbers, NoMemory>
        ensures label { IfOk result
            (λ n. n.label ≡ self.label + labels (term_of (kernel stmt.now))) }
        ensures register { IfOk result
            (λ n. n.register ≡ self.register + registers vars.now (term_of (kernel stmt.now))) }
    {
        let counted = count(stmt, vars)?;
        Ok(Numbers {
            label: plus(self.label, counted.labels)?,
            register: plus(self.register, counted.registers)?,
        })
    }
}

/// How many elements a variable has.
pub(crate) fn count_elements(vars: &[Var], var: u32) -> u128
    ensures { result ≡ count_of vars.now var }
{
    match vars.get(var as usize) {
        Some(var) => var.decl.ty.len.unwrap_or(1),
        None => 1,
    }
}

// How many registers each element of a variable has.
fn registers_each(vars: &[Var], var: u32) -> u32
    ensures { result ≡ plain_registers_each (shape_in vars.now var) }
{
    match vars.get(var as usize) {
        Some(var) => {
            let delayed = var.delayed as u32;
            var.decl.storage.is_memorized() as u32 + (delayed + delayed)
        }
        None => 1,
    }
}

// How many registers a variable has.
fn variable_registers(vars: &[Var], var: u32) -> Result<u32, NoMemory>
    ensures { IfOk result (λ n. n ≡ plain_variable_registers vars.now var) }
{
    let Ok(count) = u32::try_from(count_elements(vars, var)) else {
        return Err(NoMemory);
    };
    match count.checked_mul(registers_each(vars, var)) {
        Some(registers) => Ok(registers),
        None => Err(NoMemory),
    }
}

/// How many registers the variable of a scope has, whose body has so many labels.
pub(crate) fn scope_registers(vars: &[Var], labels: u32, var: u32) -> Result<u32, NoMemory>
    ensures { IfOk result (λ n. n ≡ plain_scope_registers vars.now labels var) }
{
    if labels == 0 {
        return Ok(0);
    }
    let registers = variable_registers(vars, var)?;
    Ok(registers)
}

// How many registers the variables of the scopes around a statement have.
fn chain_registers(stmt: &Stmt, vars: &[Var]) -> Result<u32, NoMemory>
    ensures { IfOk result (λ n. n ≡ plain_chain_registers vars.now (kernel stmt.now)) }
{
    let mut total = 0;
    let mut inner = stmt;
    while let Stmt::Local { var, body } = inner {
        total = plus(total, variable_registers(vars, *var)?)?;
        inner = body;
    }
    Ok(total)
}

/// Whether a statement is a scope.
pub(crate) fn is_scope(stmt: &Stmt) -> bool
    ensures { result ≡ plain_is_scope (kernel stmt.now) }
{
    match stmt {
        Stmt::Local { .. } => true,
        Stmt::Nothing => false,
        Stmt::Pause => false,
        Stmt::Write { .. } => false,
        Stmt::Choose { .. } => false,
        Stmt::Seq(_) => false,
        Stmt::Par(_) => false,
        Stmt::Loop { .. } => false,
        Stmt::Guard { .. } => false,
    }
}

/// The counts of a statement.
#[cycle(counts)]
pub fn count(stmt: &Stmt, vars: &[Var]) -> Result<Counts, NoMemory>
    ensures labels { IfOk result (λ n. n.labels ≡ labels (term_of (kernel stmt.now))) }
    ensures registers { IfOk result
        (λ n. n.registers ≡ registers vars.now (term_of (kernel stmt.now))) }
{
    let inner = count_inside(unscoped(stmt), vars)?;
    if inner.labels == 0 {
        return Ok(inner);
    }
    let scopes = chain_registers(stmt, vars)?;
    Ok(Counts {
        labels: inner.labels,
        registers: plus(scopes, inner.registers)?,
    })
}

// The counts of two statements.
fn both(a: Counts, b: Counts) -> Result<Counts, NoMemory>
    ensures labels { IfOk result (λ n. n.labels ≡ a.labels + b.labels) }
    ensures registers { IfOk result (λ n. n.registers ≡ a.registers + b.registers) }
{
    Ok(Counts {
        labels: plus(a.labels, b.labels)?,
        registers: plus(a.registers, b.registers)?,
    })
}

// The counts of a statement without the scopes around it.
#[cycle(counts)]
fn count_inside(stmt: &Stmt, vars: &[Var]) -> Result<Counts, NoMemory>
    ensures labels { IfOk result (λ n. n.labels ≡ labels (term_of (kernel stmt.now))) }
    ensures registers { IfOk result
        (λ n. n.registers ≡ registers vars.now (term_of (kernel stmt.now))) }
{
    match stmt {
        Stmt::Nothing => Ok(Counts {
            labels: 0,
            registers: 0,
        }),
        Stmt::Pause => Ok(Counts {
            labels: 1,
            registers: 0,
        }),
        Stmt::Write { .. } => Ok(Counts {
            labels: 0,
            registers: 0,
        }),
        Stmt::Choose { yes, no, .. } => {
            let yes = count(yes, vars)?;
            let no = count(no, vars)?;
            let sum = both(yes, no)?;
            Ok(sum)
        }
        Stmt::Seq(parts) => {
            let sum = count_parts(parts, vars)?;
            Ok(sum)
        }
        Stmt::Par(parts) => {
            let sum = count_parts(parts, vars)?;
            Ok(sum)
        }
        Stmt::Loop { body, .. } => {
            let inner = count(body, vars)?;
            Ok(inner)
        }
        Stmt::Guard {
            abort,
            immediate,
            body,
            ..
        } => {
            let inner = count(body, vars)?;
            let waits = (!*abort && *immediate) as u32;
            Ok(Counts {
                labels: plus(waits, inner.labels)?,
                registers: inner.registers,
            })
        }
        Stmt::Local { var, body } => {
            let inner = count(body, vars)?;
            let scope = scope_registers(vars, inner.labels, *var)?;
            Ok(Counts {
                labels: inner.labels,
                registers: plus(scope, inner.registers)?,
            })
        }
    }
}

/// The counts of several statements.
#[cycle(counts)]
pub(crate) fn count_parts(parts: &[Stmt], vars: &[Var]) -> Result<Counts, NoMemory>
    ensures labels { IfOk result
        (λ n. n.labels ≡ labels_all (terms_of (kernels (map kernel parts.now)))) }
    ensures registers { IfOk result
        (λ n. n.registers ≡ registers_all vars.now (terms_of (kernels (map kernel parts.now)))) }
{
    let mut sum = Counts {
        labels: 0,
        registers: 0,
    };
    for part in parts {
        sum = both(sum, count(part, vars)?)?;
    }
    Ok(sum)
}
