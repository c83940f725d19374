//! The term of a typed module, and that it can react.

ghost use Rattle.std.specs.Prelude.{◌≡◌, IfOk};
ghost use Rattle.quartz_tree.specs.Kernel.{kernel};
ghost use Rattle.quartz_expr.specs.Terms.{term_of};
ghost use Rattle.sos_model.specs.FormTerms.{term};
ghost use Rattle.sos_terms.specs.Laws.{TypedBodiesReact};

use quartz_tree::NoMemory;
use quartz_types::Typed;
use sos_model::Term;
use std::alloc::Global;

/// The term of a typed module's body, over its variables. Its scopes have no store.
#[tactic(auto, using(crate::proofs::ReactLemmas::typed_can_react))]
pub fn start(alloc: Global, typed: &Typed) -> Result<Term, NoMemory>
    ensures term { IfOk result (λ t. term t.form ≡ term_of (kernel typed.now.resolved.body)) }
    ensures vars { IfOk result (λ t. t.vars ≡ typed.now.resolved.vars) }
{
    let module = typed.get();
    Term::start(alloc, &module.body, module.vars.as_slice())
}

/// The body of a typed module is a term that can react over its variables. The function does
/// nothing, and its contract states the law.
pub fn typed_bodies_react()
    ensures { TypedBodiesReact }
{}
