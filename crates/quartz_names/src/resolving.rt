//! A module with its names replaced by numbers.

ghost use Rattle.std.specs.Prelude.{◌≡◌, ◌^◌, ◌<◌, IfOk, IsErrOf, None, OnOk, Some, [], false, length, true};
ghost use Rattle.quartz_tree.specs.declared.place.Place.{Place};
ghost use Rattle.quartz_tree.specs.Kernel.{kernel};
ghost use Rattle.quartz_tree.specs.Least.{least_place};
ghost use Rattle.quartz_tree.specs.Surfaces.{module_tree, written};
ghost use Rattle.quartz_names.specs.Resolving.{declarations, has_call, module_name_breaks, resolved_body, resolved_vars, variables_from};
ghost use Rattle.quartz_names.specs.Numbered.{IsResolved, Resolves, is_numbered};
ghost use Rattle.quartz_names.specs.Scopes.{no_names};
ghost use Rattle.quartz_names.specs.Starts.{start_value};
ghost use Rattle.quartz_names.specs.Targets.{next_targets};
ghost use Rattle.quartz_names.specs.Walks.{scope_in};

use crate::constant::start_value;
use crate::fault::NamesFault;
use crate::target::delayed_flags;
use crate::walk::Walk;
use quartz_tree::{Copied, Decl, Module, Name, NoMemory, Stmt, Var, expand};
use sqlite_items::Items;
use std::alloc::Global;

/// A module whose names are numbers: parameters in order, then locals in textual order.
#[derive(Debug, Drop)]
pub struct Resolved {
    pub name: Name,
    pub vars: Items<Var>,
    pub body: Stmt,
}

// The variable of a declaration.
fn variable(alloc: Global, decl: &Decl, delayed: bool) -> Result<Var, NoMemory>
    ensures { IfOk result (λ v. v ≡ record {
      decl = decl.now;
      delayed = delayed;
      start = start_value decl.now;
    }) }
{
    Ok(Var {
        decl: decl.copied(alloc)?,
        delayed,
        start: start_value(decl),
    })
}

// The variables of these declarations, numbered in order.
fn variables(alloc: Global, decls: &[Decl], body: &Stmt) -> Result<Items<Var>, NoMemory>
    ensures { IfOk result (λ vs. vs ≡ variables_from (next_targets (kernel body.now)) 0 decls.now) }
{
    let flags = delayed_flags(alloc, body, decls.len())?;
    let delayed = flags.as_slice();
    let mut vars = Items::new(alloc);
    for (number, decl) in decls.iter().enumerate() {
        vars.push(variable(alloc, decl, delayed[number])?)?;
    }
    Ok(vars)
}

// The body over numbers, from the start of a walk.
#[tactic(auto, using(crate::proofs::WalkLemmas::walks_module))]
fn walk_module(alloc: Global, walk: &mut Walk, module: &Module) -> Result<Stmt, NoMemory>
    requires names { scope_in walk.old ≡ no_names }
    requires decls { walk.old.decls ≡ [] }
    requires broken { walk.old.broken ≡ None }
    ensures body { IfOk result (λ k. kernel k ≡ resolved_body (module_tree «module».now)) }
    ensures decls { OnOk result (walk.new.decls ≡ declarations (module_tree «module».now)) }
    ensures broken { OnOk result (walk.new.broken
        ≡ least_place (module_name_breaks (module_tree «module».now))) }
{
    walk.open(alloc, &module.params)?;
    let expanded = expand(alloc, &module.body)?;
    let body = walk.stmt(alloc, &expanded)?;
    Ok(body)
}

/// The module with its derived forms replaced and its names by the numbers of their variables.
///
/// It has fewer than 2^32 variables, and a module with more has no memory. Where memory is refused,
/// a module that breaks the rule of names may answer [`NamesFault::NoMemory`] too.
pub fn resolve(alloc: Global, module: &Module) -> Result<Resolved, NamesFault>
    requires { has_call (written «module».now.body) ≡ false }
    ensures name { IfOk result (λ r. r.name ≡ «module».now.name) }
    ensures body { IfOk result (λ r. kernel r.body ≡ resolved_body (module_tree «module».now)) }
    ensures vars { IfOk result (λ r. r.vars ≡ resolved_vars (module_tree «module».now)) }
    ensures few { IfOk result (λ r. length r.vars < 2 ^ 32) }
    ensures resolves { IfOk result (λ r. Resolves «module».now r) }
    ensures resolved { IfOk result (λ r. IsResolved r) }
    ensures numbered { IfOk result (λ r. is_numbered r.vars (kernel r.body) ≡ true) }
    ensures unbroken { OnOk result
        (least_place (module_name_breaks (module_tree «module».now)) ≡ None) }
    ensures broken { (p : Place) → IsErrOf result (NamesFault.S3 p) →
        least_place (module_name_breaks (module_tree «module».now)) ≡ Some p }
{
    let mut walk = Walk::new(alloc);
    let body = walk_module(alloc, &mut walk, module)?;
    if let Some(place) = walk.broken {
        return Err(NamesFault::S3(place));
    }
    walk.count()?;
    let vars = variables(alloc, walk.decls.as_slice(), &body)?;
    Ok(Resolved {
        name: module.name.copied(alloc)?,
        vars,
        body,
    })
}
