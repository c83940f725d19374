//! The variables that delayed writes target.

ghost use Rattle.std.specs.Prelude.{◌≡◌, ◌++◌, ◌<◌, ℕ, IfOk, OnOk, false, length, map, slice_index_or};
ghost use Rattle.quartz_tree.specs.Kernel.{kernel, kernels};
ghost use Rattle.quartz_names.specs.Targets.{all_next_targets, is_among, next_targets};

use crate::scope::unscoped;
use quartz_tree::{NoMemory, Stmt};
use sqlite_items::Items;
use std::alloc::Global;

// Adds the targets of the statement's delayed writes.
#[cycle(targets)]
#[tactic(auto, using(crate::proofs::TargetLemmas::targets_unscoped))]
fn add_targets(targets: &mut Vec<u32>, stmt: &Stmt) -> Result<(), NoMemory>
    ensures { OnOk result (targets.new.items ≡ targets.old.items
        ++ next_targets (kernel stmt.now)) }
{
    add_targets_inside(targets, unscoped(stmt))?;
    Ok(())
}

// Adds the targets of a statement without the scopes around it.
#[cycle(targets)]
fn add_targets_inside(targets: &mut Vec<u32>, stmt: &Stmt) -> Result<(), NoMemory>
    ensures { OnOk result (targets.new.items ≡ targets.old.items
        ++ next_targets (kernel stmt.now)) }
{
    match stmt {
        Stmt::Nothing | Stmt::Pause => Ok(()),
        Stmt::Write { var, delayed, .. } => {
            if *delayed {
                targets.push(*var)?;
            }
            Ok(())
        }
        Stmt::Choose { yes, no, .. } => {
            add_targets(targets, yes)?;
            add_targets(targets, no)?;
            Ok(())
        }
        Stmt::Seq(parts) | Stmt::Par(parts) => {
            add_all_targets(targets, parts)?;
            Ok(())
        }
        Stmt::Loop { body, .. } | Stmt::Guard { body, .. } | Stmt::Local { body, .. } => {
            add_targets(targets, body)?;
            Ok(())
        }
    }
}

#[cycle(targets)]
fn add_all_targets(targets: &mut Vec<u32>, stmts: &[Stmt]) -> Result<(), NoMemory>
    ensures { OnOk result (targets.new.items ≡ targets.old.items
        ++ all_next_targets (kernels (map kernel stmts.now))) }
{
    for stmt in stmts {
        add_targets(targets, stmt)?;
    }
    Ok(())
}

/// For each of so many variables, whether some `next` targets it.
pub(crate) fn delayed_flags(
    alloc: Global,
    stmt: &Stmt,
    count: usize,
) -> Result<Items<bool>, NoMemory>
    ensures length { IfOk result (λ flags. length flags ≡ count) }
    ensures flags { IfOk result (λ flags. (x : ℕ) → x < count →
        slice_index_or flags x false ≡ is_among (next_targets (kernel stmt.now)) x) }
{
    let mut targets = Vec::new(alloc);
    add_targets(&mut targets, stmt)?;
    let mut flags = Items::from_vec(vec![in alloc; false; count]?);
    for target in &targets {
        let at = *target as usize;
        if at < flags.len() {
            flags.set(at, true);
        }
    }
    Ok(flags)
}
