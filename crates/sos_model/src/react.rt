//! The reaction of a term with given values for its scopes.

ghost use Rattle.std.specs.Prelude.{◌≡◌, ◌++◌, ℤ, List, IfOk, IfErr, IsErrOf, None, map, option_map, true};
ghost use Rattle.quartz_expr.specs.React as relation;
ghost use Rattle.quartz_expr.specs.React.{Reacts, givens};
ghost use Rattle.quartz_expr.specs.Typed.{Fits};
ghost use Rattle.sos_model.specs.Answers.{FailsWith, IsReaction, IsUnresolved, first_unresolved};
ghost use Rattle.sos_model.specs.FormTerms.{term};
ghost use Rattle.sos_model.specs.Found.{Finds, held_or, met_of};
ghost use Rattle.sos_model.specs.Sound.{is_sound};
ghost use Rattle.sos_model.specs.Walk.{walk as walk_of};
ghost use Rattle.sos_model.specs.declared.fault.ReactFault.TheVariants.{NoMemory as no_memory};

use crate::copying::held_form;
use crate::fault::{ReactFault, WalkFault};
use crate::found::{Found, Meeting};
use crate::term::Term;
use crate::walking::walk;
use quartz_expr::{Act, Env};
use quartz_tree::{Fault, NoMemory};
use sqlite_items::Items;
use std::alloc::Global;

/// What a term does in a macro step.
#[derive(Debug, Drop)]
pub struct Reaction {
    /// What is left of the term.
    pub residual: Term,
    /// The term as a weak suspension holds it.
    pub held: Term,
    /// The writes on variables outside the term's scopes, in the order of reaction.
    pub writes: Vec<Act>,
    /// The faults in the order of evaluation, a scope's conflicts behind those of its body.
    pub faults: Vec<Fault>,
    pub ended: bool,
}

fn copied_env(alloc: Global, env: &Env) -> Result<Env, NoMemory>
    ensures { IfOk result (λ e. e.values ≡ env.now.values) }
{
    let mut values = Items::new(alloc);
    for elements in env.values.as_slice() {
        values.push(Items::from_slice(alloc, elements.as_slice())?)?;
    }
    Ok(Env { values })
}

// The first element of a scope whose given value isn't the resolved one.
fn first_difference(met: &[Meeting]) -> Option<Meeting>
    ensures { option_map met_of result ≡ first_unresolved (map met_of met.now) }
{
    for meeting in met {
        if meeting.given != meeting.wanted {
            return Some(*meeting);
        }
    }
    None
}

fn reaction_of(alloc: Global, before: &Term, found: Found) -> Result<Reaction, NoMemory>
    requires residual { is_sound before.now.vars (term found.residual) ≡ true }
    requires held { is_sound before.now.vars
        (held_or (option_map term found.held) (term before.now.form)) ≡ true }
    ensures residual { IfOk result (λ r. r.residual.form ≡ found.residual) }
    ensures held { IfOk result (λ r. term r.held.form
        ≡ held_or (option_map term found.held) (term before.now.form)) }
    ensures residual_vars { IfOk result (λ r. r.residual.vars ≡ before.now.vars) }
    ensures held_vars { IfOk result (λ r. r.held.vars ≡ before.now.vars) }
    ensures writes { IfOk result (λ r. r.writes ≡ found.acts) }
    ensures faults { IfOk result (λ r. r.faults ≡ found.faults) }
    ensures ended { IfOk result (λ r. r.ended ≡ found.ended) }
{
    let held = held_form(alloc, found.held, &before.form)?;
    Ok(Reaction {
        residual: before.with_form(alloc, found.residual)?,
        held: before.with_form(alloc, held)?,
        writes: found.acts,
        faults: found.faults,
        ended: found.ended,
    })
}

/// The reaction of a term under an environment, with these values for the elements of its scopes,
/// in the order in which they are met. Values behind those that are needed have no effect.
#[tactic(auto, using(crate::proofs::AnswerLemmas::vars_by_test, crate::proofs::AnswerLemmas::residual_of, crate::proofs::AnswerLemmas::held_of, crate::proofs::AnswerLemmas::is_reaction, crate::proofs::AnswerLemmas::is_unresolved, crate::proofs::AnswerLemmas::never_missing, crate::proofs::AnswerLemmas::never_unresolved, crate::proofs::AnswerLemmas::never_short, crate::proofs::AnswerLemmas::short_meets_none, crate::proofs::AnswerLemmas::resolved_meets_none))]
pub fn react_with(
    alloc: Global,
    before: &Term,
    env: &Env,
    scopes: &[i64],
) -> Result<Reaction, ReactFault>
    requires { Fits before.now.vars env.now.values }
    ensures reaction { IfOk result (λ r.
        IsReaction before.now.vars env.now.values (term before.now.form) scopes.now r) }
    ensures residual_vars { IfOk result (λ r. r.residual.vars ≡ before.now.vars) }
    ensures held_vars { IfOk result (λ r. r.held.vars ≡ before.now.vars) }
    ensures short { walk_of before.now.vars env.now.values (term before.now.form) scopes.now
        ≡ None → FailsWith result ReactFault.Missing }
    ensures missing { IsErrOf result ReactFault.Missing →
        walk_of before.now.vars env.now.values (term before.now.form) scopes.now ≡ None }
    ensures differs { (wanted given : ℤ) → IsErrOf result (ReactFault.Differs wanted given) →
        IsUnresolved before.now.vars env.now.values (term before.now.form) scopes.now wanted given }
    ensures unresolved { (wanted given : ℤ) →
        IsUnresolved before.now.vars env.now.values (term before.now.form) scopes.now wanted given →
        FailsWith result (ReactFault.Differs wanted given) }
    ensures complete { (r : relation.Reaction) (rest : List ℤ) →
        Reacts before.now.vars env.now.values (term before.now.form) r →
        givens r.met ++ rest ≡ scopes.now → IfErr result (λ e. e ≡ no_memory) }
{
    let mut own = copied_env(alloc, env)?;
    let found = match walk(alloc, &before.form, before.vars(), &mut own, scopes) {
        Ok(found) => found,
        Err(WalkFault::Missing) => return Err(ReactFault::Missing),
        Err(WalkFault::NoMemory) => return Err(ReactFault::NoMemory),
    };
    if let Some(meeting) = first_difference(&found.met) {
        return Err(ReactFault::Differs(meeting.wanted, meeting.given));
    }
    let reaction = reaction_of(alloc, before, found)?;
    Ok(reaction)
}
