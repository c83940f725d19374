//! What the registers of outputs and scopes take for the next step.

ghost use Rattle.std.specs.Prelude.{◌≡◌, ◌+◌, ◌<◌, ◌^◌, [], length, map, true, IfOk, OnOk};
ghost use Rattle.quartz_expr.specs.Typed.{have_sound_types};
ghost use Rattle.quartz_expr.specs.Terms.{term_of, terms_of};
ghost use Rattle.quartz_tree.specs.Kernel.{kernel, kernels};
ghost use Rattle.quartz_names.specs.Unscoped.{unscoped};
ghost use Rattle.reincarnation.specs.Carrying.{stores};
ghost use Rattle.statement_cells.specs.Labels.{labels as plain_labels, registers, registers_all};
ghost use Rattle.statement_cells.specs.Whole.{carried_in, outputs_taken};
ghost use Rattle.statement_builder.specs.Built.{depth_copy, entered_copy};
ghost use Rattle.surface_depth.specs.Carrying.{ChangesStores, all_of, closed_output, depths_from, scope_from, scopes_of};
ghost use Rattle.surface_depth.specs.Lists.{depths_by, entered_by, list_at};

use crate::counting::{count_in_scope, count_registers, plus};
use crate::lists::{empty_lists, push_at};
use aif_cells::Aif;
use quartz_names::unscoped;
use quartz_tree::{NoMemory, Stmt};
use reincarnation::{ClosedRefs, Entered, carry};
use sqlite_items::Items;
use statement_builder::{DepthCopy, EnteredCopy, count};
use std::alloc::Global;

/// A closed output, with its first register.
#[derive(Debug, Drop)]
pub(crate) struct ClosedOutput {
    pub var: u32,
    pub first: u32,
    pub closed: ClosedRefs,
}

// Sets what the registers of a variable take, which begin at the first one.
#[tactic(auto, using(crate::proofs::CarryLemmas::carried_there, crate::proofs::CarryLemmas::carried_nowhere, crate::proofs::CarryLemmas::room_there, crate::proofs::CarryLemmas::few_there, crate::proofs::CarryLemmas::count_there))]
fn carry_in(
    alloc: Global,
    aif: &mut Aif,
    var: u32,
    first: u32,
    copies: &[Entered],
    closed: &ClosedRefs,
) -> Result<(), NoMemory>
    requires types { have_sound_types aif.old.vars ≡ true }
    requires few { length aif.old.registers < 2 ^ 32 }
    ensures carried { OnOk result
        (stores aif.new.registers aif.new.cells
        ≡ carried_in aif.old.vars var copies.now closed.now first
        (stores aif.old.registers aif.old.cells)) }
    ensures rest { OnOk result (ChangesStores aif.old aif.new) }
    ensures count { OnOk result (length aif.new.registers ≡ length aif.old.registers) }
{
    if var as usize >= aif.vars.len() {
        return Ok(());
    }
    let registers = count_registers(aif.vars.as_slice(), var);
    if first as usize + registers as usize > aif.registers.len() {
        return Err(NoMemory);
    }
    carry(alloc, aif, var, first, copies, closed)?;
    Ok(())
}

/// Registers of outputs take what the closed copies have.
pub(crate) fn take_outputs(
    alloc: Global,
    aif: &mut Aif,
    outputs: &[ClosedOutput],
) -> Result<(), NoMemory>
    requires types { have_sound_types aif.old.vars ≡ true }
    requires few { length aif.old.registers < 2 ^ 32 }
    ensures carried { OnOk result
        (stores aif.new.registers aif.new.cells
        ≡ outputs_taken aif.old.vars (map closed_output outputs.now)
        (stores aif.old.registers aif.old.cells)) }
    ensures rest { OnOk result (ChangesStores aif.old aif.new) }
    ensures count { OnOk result (length aif.new.registers ≡ length aif.old.registers) }
{
    for output in outputs {
        carry_in(alloc, aif, output.var, output.first, &[], &output.closed)?;
    }
    Ok(())
}

// The list with that number, which is empty where there is none.
fn list_at<T>(lists: &[Items<T>], at: u32) -> &[T]
    ensures { result.now ≡ list_at lists.now at }
{
    match lists.get(at as usize) {
        Some(list) => list.as_slice(),
        None => &[],
    }
}

// Registers take what the copies with store have, or what the copies without store have that were
// entered.
fn take_depths(
    alloc: Global,
    aif: &mut Aif,
    entered: &[Items<Entered>],
    depths: &[DepthCopy],
) -> Result<(), NoMemory>
    requires types { have_sound_types aif.old.vars ≡ true }
    requires few { length aif.old.registers < 2 ^ 32 }
    ensures carried { OnOk result
        (stores aif.new.registers aif.new.cells
        ≡ depths_from aif.old.vars entered.now (map depth_copy depths.now)
        (stores aif.old.registers aif.old.cells)) }
    ensures rest { OnOk result (ChangesStores aif.old aif.new) }
    ensures count { OnOk result (length aif.new.registers ≡ length aif.old.registers) }
{
    for depth in depths {
        let copies = list_at(entered, depth.first);
        carry_in(alloc, aif, depth.var, depth.first, copies, &depth.closed)?;
    }
    Ok(())
}

// A scope with so many registers from the first one on.
#[tactic(auto, using(crate::proofs::CarryLemmas::mapped_at))]
fn take_scope(
    alloc: Global,
    aif: &mut Aif,
    entered: &[Items<Entered>],
    depths: &[Items<DepthCopy>],
    registers: u32,
    first: u32,
) -> Result<(), NoMemory>
    requires types { have_sound_types aif.old.vars ≡ true }
    requires few { length aif.old.registers < 2 ^ 32 }
    ensures carried { OnOk result
        (stores aif.new.registers aif.new.cells
        ≡ scope_from aif.old.vars entered.now (map (map depth_copy) depths.now) registers first
        (stores aif.old.registers aif.old.cells)) }
    ensures rest { OnOk result (ChangesStores aif.old aif.new) }
    ensures count { OnOk result (length aif.new.registers ≡ length aif.old.registers) }
{
    if registers == 0 {
        return Ok(());
    }
    take_depths(alloc, aif, entered, list_at(depths, first))?;
    Ok(())
}

/// The copies of scopes, by the number of their first register.
#[derive(Debug, Drop)]
pub(crate) struct ScopeCopies {
    pub entered: Vec<Items<Entered>>,
    pub depths: Vec<Items<DepthCopy>>,
}

// The scopes around a statement, one in another, whose registers begin at the first one, where what
// is inside has so many labels. It gives the first register of what is inside.
fn take_chain(
    alloc: Global,
    aif: &mut Aif,
    copies: &ScopeCopies,
    stmt: &Stmt,
    labels: u32,
    first: u32,
) -> Result<u32, NoMemory>
    requires types { have_sound_types aif.old.vars ≡ true }
    requires few { length aif.old.registers < 2 ^ 32 }
    requires labels { labels ≡ plain_labels (term_of (kernel stmt.now)) }
    ensures carried { IfOk result
        (λ v. scopes_of copies.now aif.old.vars v (term_of (unscoped (kernel stmt.now)))
        (stores aif.new.registers aif.new.cells)
        ≡ scopes_of copies.now aif.old.vars first (term_of (kernel stmt.now))
        (stores aif.old.registers aif.old.cells)) }
    ensures number { IfOk result
        (λ v. v + registers aif.old.vars (term_of (unscoped (kernel stmt.now)))
        ≡ first + registers aif.old.vars (term_of (kernel stmt.now))) }
    ensures rest { OnOk result (ChangesStores aif.old aif.new) }
    ensures count { OnOk result (length aif.new.registers ≡ length aif.old.registers) }
{
    let mut first = first;
    let mut rest = stmt;
    while let Stmt::Local { var, body } = rest {
        let registers = count_in_scope(aif.vars.as_slice(), labels, *var);
        take_scope(
            alloc,
            aif,
            &copies.entered,
            &copies.depths,
            registers,
            first,
        )?;
        first = plus(first, registers)?;
        rest = body;
    }
    Ok(first)
}

/// Registers of a statement's scopes take what their copies have, where they begin at the first
/// one. It gives the number behind them.
#[cycle(scopes)]
#[tactic(auto, using(statement_builder::proofs::ChainLemmas::labels_unscoped))]
pub(crate) fn take_scopes(
    alloc: Global,
    aif: &mut Aif,
    copies: &ScopeCopies,
    stmt: &Stmt,
    first: u32,
) -> Result<u32, NoMemory>
    requires types { have_sound_types aif.old.vars ≡ true }
    requires few { length aif.old.registers < 2 ^ 32 }
    ensures carried { OnOk result
        (stores aif.new.registers aif.new.cells
        ≡ scopes_of copies.now aif.old.vars first (term_of (kernel stmt.now))
        (stores aif.old.registers aif.old.cells)) }
    ensures number { IfOk result
        (λ v. v ≡ first + registers aif.old.vars (term_of (kernel stmt.now))) }
    ensures rest { OnOk result (ChangesStores aif.old aif.new) }
    ensures count { OnOk result (length aif.new.registers ≡ length aif.old.registers) }
{
    let inner = unscoped(stmt);
    let labels = count(inner, aif.vars.as_slice())?.labels;
    let inside = take_chain(alloc, aif, copies, stmt, labels, first)?;
    let behind = take_inside(alloc, aif, copies, inner, inside)?;
    Ok(behind)
}

// The same of a statement without the scopes around it.
#[cycle(scopes)]
fn take_inside(
    alloc: Global,
    aif: &mut Aif,
    copies: &ScopeCopies,
    stmt: &Stmt,
    first: u32,
) -> Result<u32, NoMemory>
    requires types { have_sound_types aif.old.vars ≡ true }
    requires few { length aif.old.registers < 2 ^ 32 }
    ensures carried { OnOk result
        (stores aif.new.registers aif.new.cells
        ≡ scopes_of copies.now aif.old.vars first (term_of (kernel stmt.now))
        (stores aif.old.registers aif.old.cells)) }
    ensures number { IfOk result
        (λ v. v ≡ first + registers aif.old.vars (term_of (kernel stmt.now))) }
    ensures rest { OnOk result (ChangesStores aif.old aif.new) }
    ensures count { OnOk result (length aif.new.registers ≡ length aif.old.registers) }
{
    match stmt {
        Stmt::Nothing => Ok(first),
        Stmt::Pause => Ok(first),
        Stmt::Write { .. } => Ok(first),
        Stmt::Choose { yes, no, .. } => {
            let middle = take_scopes(alloc, aif, copies, yes, first)?;
            let behind = take_scopes(alloc, aif, copies, no, middle)?;
            Ok(behind)
        }
        Stmt::Seq(parts) => {
            let behind = take_all(alloc, aif, copies, parts, first)?;
            Ok(behind)
        }
        Stmt::Par(parts) => {
            let behind = take_all(alloc, aif, copies, parts, first)?;
            Ok(behind)
        }
        Stmt::Loop { body, .. } => {
            let behind = take_scopes(alloc, aif, copies, body, first)?;
            Ok(behind)
        }
        Stmt::Guard { body, .. } => {
            let behind = take_scopes(alloc, aif, copies, body, first)?;
            Ok(behind)
        }
        Stmt::Local { var, body } => {
            let labels = count(body, aif.vars.as_slice())?.labels;
            let registers = count_in_scope(aif.vars.as_slice(), labels, *var);
            take_scope(
                alloc,
                aif,
                &copies.entered,
                &copies.depths,
                registers,
                first,
            )?;
            let inside = plus(first, registers)?;
            let behind = take_scopes(alloc, aif, copies, body, inside)?;
            Ok(behind)
        }
    }
}

#[cycle(scopes)]
fn take_all(
    alloc: Global,
    aif: &mut Aif,
    copies: &ScopeCopies,
    stmts: &[Stmt],
    first: u32,
) -> Result<u32, NoMemory>
    requires types { have_sound_types aif.old.vars ≡ true }
    requires few { length aif.old.registers < 2 ^ 32 }
    ensures carried { OnOk result
        (stores aif.new.registers aif.new.cells
        ≡ all_of copies.now aif.old.vars first (terms_of (kernels (map kernel stmts.now)))
        (stores aif.old.registers aif.old.cells)) }
    ensures number { IfOk result
        (λ v. v ≡ first + registers_all aif.old.vars (terms_of (kernels (map kernel stmts.now)))) }
    ensures rest { OnOk result (ChangesStores aif.old aif.new) }
    ensures count { OnOk result (length aif.new.registers ≡ length aif.old.registers) }
{
    let mut behind = first;
    for stmt in stmts {
        behind = take_scopes(alloc, aif, copies, stmt, behind)?;
    }
    Ok(behind)
}

// A copy of what a copy of a variable was closed with.
fn copied_refs(alloc: Global, closed: &ClosedRefs) -> Result<ClosedRefs, NoMemory>
    ensures { IfOk result (λ c. c ≡ closed.now) }
{
    let values = Items::from_slice(alloc, closed.values.as_slice())?;
    let flags = Items::from_slice(alloc, closed.flags.as_slice())?;
    let pending = Items::from_slice(alloc, closed.pending.as_slice())?;
    Ok(ClosedRefs {
        values,
        flags,
        pending,
    })
}

fn copied_entered(alloc: Global, copy: &EnteredCopy) -> Result<Entered, NoMemory>
    ensures { IfOk result (λ e. e ≡ copy.now.entered) }
{
    let closed = copied_refs(alloc, &copy.entered.closed)?;
    Ok(Entered {
        enter: copy.entered.enter,
        closed,
    })
}

fn copied_depth(alloc: Global, depth: &DepthCopy) -> Result<DepthCopy, NoMemory>
    ensures { IfOk result (λ d. d ≡ depth.now) }
{
    let closed = copied_refs(alloc, &depth.closed)?;
    Ok(DepthCopy {
        var: depth.var,
        label: depth.label,
        labels: depth.labels,
        first: depth.first,
        closed,
    })
}

// The copies without store by the number of their first register, of which there are so many.
#[tactic(auto, using(crate::proofs::CopyLemmas::entered_none))]
fn entered_by(
    alloc: Global,
    copies: &[EnteredCopy],
    registers: usize,
) -> Result<Vec<Items<Entered>>, NoMemory>
    ensures { IfOk result (λ v. v.items ≡ entered_by 0 registers (map entered_copy copies.now)) }
{
    let mut lists = empty_lists(alloc, registers)?;
    for copy in copies {
        push_at(
            &mut lists,
            copy.first as usize,
            copied_entered(alloc, copy)?,
        )?;
    }
    Ok(lists)
}

// The copies with store by the number of their first register, of which there are so many.

fn depths_by(
    alloc: Global,
    copies: &[DepthCopy],
    registers: usize,
) -> Result<Vec<Items<DepthCopy>>, NoMemory>
    ensures { IfOk result
        (λ v. map (map depth_copy) v.items ≡ depths_by 0 registers (map depth_copy copies.now)) }
{
    let mut lists = empty_lists(alloc, registers)?;
    for copy in copies {
        push_at(&mut lists, copy.first as usize, copied_depth(alloc, copy)?)?;
    }
    Ok(lists)
}

/// The copies of scopes by the number of their first register, of which there are so many.
pub(crate) fn copies_by_register(
    alloc: Global,
    entered: &[EnteredCopy],
    depths: &[DepthCopy],
    registers: usize,
) -> Result<ScopeCopies, NoMemory>
    ensures entered { IfOk result
        (λ c. c.entered.items ≡ entered_by 0 registers (map entered_copy entered.now)) }
    ensures depths { IfOk result
        (λ c. map (map depth_copy) c.depths.items
        ≡ depths_by 0 registers (map depth_copy depths.now)) }
{
    let entered = entered_by(alloc, entered, registers)?;
    let depths = depths_by(alloc, depths, registers)?;
    Ok(ScopeCopies { entered, depths })
}
