//! The rules of a module, judged in their order.

ghost use Rattle.std.specs.Prelude.{◌≡◌, ◌↔◌, ℕ, IfOk, IsErrOf, None, Some};
ghost use Rattle.quartz_tree.specs.declared.place.Place.{Place};
ghost use Rattle.quartz_tree.specs.Kernel.{kernel};
ghost use Rattle.quartz_tree.specs.Least.{least_place};
ghost use Rattle.quartz_names.specs.Numbered.{IsResolved};
ghost use Rattle.quartz_types.specs.Rules.{first_break, module_bound_breaks, module_kind_breaks};

use crate::bound::least_declared_break;
use crate::fault::TypeFault;
use crate::input::least_input_write;
use crate::kind::{least_constant_break, least_kind_break};
use crate::looping::least_instant_loop;
use crate::stmt_bound::least_bound_break;
use crate::typed::Typed;
use quartz_names::{Resolved, lesser_place};
use quartz_tree::{Place, Stmt, Var};
use std::alloc::Global;

#[tactic(auto, using(quartz_names::proofs::LeastLemmas::least_append))]
fn least_module_kind_break(vars: &[Var], body: &Stmt) -> Option<Place>
    ensures { result ≡ least_place (module_kind_breaks vars.now (kernel body.now)) }
{
    lesser_place(least_constant_break(vars), least_kind_break(body, vars))
}

#[tactic(auto, using(quartz_names::proofs::LeastLemmas::least_append))]
fn least_module_bound_break(vars: &[Var], body: &Stmt) -> Option<Place>
    ensures { result ≡ least_place (module_bound_breaks vars.now (kernel body.now)) }
{
    lesser_place(least_declared_break(vars), least_bound_break(body, vars))
}

/// The first of the rules S4 to S7 that is broken, at the least of its places.
pub fn first_break(vars: &[Var], body: &Stmt) -> Option<(u8, Place)>
    ensures { result ≡ first_break vars.now (kernel body.now) }
{
    if let Some(place) = least_module_kind_break(vars, body) {
        return Some((4, place));
    }
    if let Some(place) = least_module_bound_break(vars, body) {
        return Some((5, place));
    }
    if let Some(place) = least_input_write(body, vars) {
        return Some((6, place));
    }
    if let Some(place) = least_instant_loop(body) {
        return Some((7, place));
    }
    None
}

/// Judges a module by the rules S4 to S7. It takes no memory, and so never answers
/// [`TypeFault::NoMemory`].
pub fn check(_alloc: Global, resolved: Resolved) -> Result<Typed, TypeFault>
    requires { IsResolved resolved }
    ensures same { IfOk result (λ t. t.resolved ≡ resolved) }
    ensures broken { (r : ℕ) (p : Place) → IsErrOf result (TypeFault.Rule r p)
        ↔ (first_break resolved.vars (kernel resolved.body) ≡ Some (r, p)) }
    ensures no_memory { ¬ (IsErrOf result TypeFault.NoMemory) }
{
    match first_break(resolved.vars.as_slice(), &resolved.body) {
        Some((rule, place)) => Err(TypeFault::Rule(rule, place)),
        None => Ok(Typed { resolved }),
    }
}
