//! What a walk has passed of a sequence or of a parallel.

ghost use Rattle.std.specs.Prelude.{◌≡◌, ◌+◌, ◌<◌, ◌^◌, ◌++◌, ◌&&◌, ◌∷◌, [], true, IfOk, map, option_map};
ghost use Rattle.quartz_expr.specs.Terms.{Term, seq, par, part, none};
ghost use Rattle.quartz_expr.specs.React.{Reaction, Reactions, beside, ends, goes_on, sequence, together, unless_ended};
ghost use Rattle.sos_model.specs.FormTerms.{term, terms};
ghost use Rattle.sos_model.specs.Found.{held_or, reaction_of};
ghost use Rattle.sos_model.specs.Passed.{behind as behind_parts, behind_all};
ghost use Rattle.sos_model.specs.Walk.{stopped};

use crate::copying::{copied_all, held_form};
use crate::form::Form;
use crate::found::{Found, Meeting};
use quartz_expr::Act;
use quartz_tree::{Fault, NoMemory};
use std::alloc::Global;

/// What was passed of a sequence: parts that ended. The sequence is held by what its first part
/// holds.
#[derive(Debug, Drop)]
pub(crate) struct Passed {
    pub held: Option<Form>,
    pub acts: Vec<Act>,
    pub faults: Vec<Fault>,
    pub met: Vec<Meeting>,
    pub used: usize,
}

// One list behind another.
fn join<T: Drop>(mut front: Vec<T>, mut back: Vec<T>) -> Result<Vec<T>, NoMemory>
    ensures { IfOk result (λ v. v.items ≡ front.items ++ back.items) }
{
    front.append(&mut back)?;
    Ok(front)
}

// A list with one form more.
fn with_last(mut forms: Vec<Form>, last: Form) -> Result<Vec<Form>, NoMemory>
    ensures { IfOk result (λ v. v.items ≡ forms.items ++ last ∷ []) }
{
    forms.push(last)?;
    Ok(forms)
}

// The sequence of a form and others.
#[tactic(auto, using(crate::proofs::FormLemmas::term_seq))]
fn sequence_of(alloc: Global, first: Form, rest: &[Form]) -> Result<Form, NoMemory>
    ensures { IfOk result (λ f. term f ≡ seq (part (term first) (terms (map term rest.now)))) }
{
    let mut parts = Vec::new(alloc);
    parts.push(first)?;
    let mut others = copied_all(alloc, rest)?;
    parts.append(&mut others)?;
    Ok(Form::Seq(parts))
}

// The sequence of what is left of a form and others: alone it is that form.
#[tactic(auto, using(crate::proofs::PassedLemmas::sequence_alone, crate::proofs::PassedLemmas::sequence_more))]
fn residual_before(alloc: Global, first: Form, rest: &[Form]) -> Result<Form, NoMemory>
    ensures { IfOk result (λ f. term f ≡ sequence (term first) (terms (map term rest.now))) }
{
    if rest.is_empty() {
        Ok(first)
    } else {
        let all = sequence_of(alloc, first, rest)?;
        Ok(all)
    }
}

// What a sequence is held by: what its first part is held by, if one was passed, and else this
// part.
fn held_by(
    alloc: Global,
    held: Option<Form>,
    first: &Form,
    first_held: Option<Form>,
    rest: &[Form],
) -> Result<Form, NoMemory>
    ensures { IfOk result (λ f. term f ≡ held_or (option_map term held) (seq (part
        (held_or (option_map term first_held) (term first.now)) (terms (map term rest.now))))) }
{
    match held {
        Some(held) => Ok(held),
        None => {
            let first = held_form(alloc, first_held, first)?;
            let all = sequence_of(alloc, first, rest)?;
            Ok(all)
        }
    }
}

// The same where no part is left.
#[tactic(auto, using(crate::proofs::FormLemmas::term_seq))]
fn held_at_end(alloc: Global, held: Option<Form>) -> Form
    ensures { term result ≡ held_or (option_map term held) (seq none) }
{
    match held {
        Some(held) => held,
        None => Form::Seq(Vec::new(alloc)),
    }
}

// Whether two parts ended.
fn both(first: bool, second: bool) -> bool
    ensures { result ≡ (first && second) }
{
    first && second
}

// What is left of a parallel.
#[tactic(auto, using(crate::proofs::FormLemmas::term_par))]
fn residual_beside(ended: bool, residuals: Vec<Form>) -> Form
    ensures { term result ≡ unless_ended ended (par (terms (map term residuals.items))) }
{
    if ended {
        Form::Nothing
    } else {
        Form::Par(residuals)
    }
}

impl Passed {
    /// Nothing was passed.
    pub fn new(alloc: Global) -> Passed
        ensures passed { (p : Reaction) → behind_parts result p ≡ p }
        ensures used { result.used ≡ 0 }
    {
        Passed {
            held: None,
            acts: Vec::new(alloc),
            faults: Vec::new(alloc),
            met: Vec::new(alloc),
            used: 0,
        }
    }

    /// One part more was passed, and these are left.
    #[tactic(auto, using(crate::proofs::PassedLemmas::passed_more))]
    pub fn go_on(
        self,
        alloc: Global,
        first: &Form,
        found: Found,
        rest: &[Form],
    ) -> Result<Passed, NoMemory>
        requires { self.used + found.used < 2 ^ 64 }
        ensures passed { IfOk result (λ b. (p : Reaction) → behind_parts b p ≡ behind_parts self
            (goes_on (terms (map term rest.now)) (reaction_of (term first.now) found) p)) }
        ensures used { IfOk result (λ b. b.used ≡ self.used + found.used) }
    {
        Ok(Passed {
            held: Some(held_by(alloc, self.held, first, found.held, rest)?),
            acts: join(self.acts, found.acts)?,
            faults: join(self.faults, found.faults)?,
            met: join(self.met, found.met)?,
            used: self.used + found.used,
        })
    }

    /// Control stops in a part, and these are left.
    #[tactic(auto, using(crate::proofs::PassedLemmas::map_append))]
    pub fn stop(
        self,
        alloc: Global,
        first: &Form,
        found: Found,
        rest: &[Form],
    ) -> Result<Found, NoMemory>
        requires { self.used + found.used < 2 ^ 64 }
        ensures reaction { IfOk result (λ f. (t : Term) → reaction_of t f ≡ behind_parts self
            (stopped (terms (map term rest.now)) (reaction_of (term first.now) found))) }
        ensures used { IfOk result (λ f. f.used ≡ self.used + found.used) }
    {
        Ok(Found {
            residual: residual_before(alloc, found.residual, rest)?,
            held: Some(held_by(alloc, self.held, first, found.held, rest)?),
            acts: join(self.acts, found.acts)?,
            faults: join(self.faults, found.faults)?,
            met: join(self.met, found.met)?,
            ended: found.ended,
            used: self.used + found.used,
        })
    }

    /// All parts were passed.
    pub fn end(self, alloc: Global) -> Found
        ensures reaction { (t : Term) →
            reaction_of t result ≡ behind_parts self (ends [] [] (seq none)) }
        ensures used { result.used ≡ self.used }
    {
        Found {
            residual: Form::Nothing,
            held: Some(held_at_end(alloc, self.held)),
            acts: self.acts,
            faults: self.faults,
            met: self.met,
            ended: true,
            used: self.used,
        }
    }
}

/// What was passed of a parallel: parts that reacted.
#[derive(Debug, Drop)]
pub(crate) struct Beside {
    pub residuals: Vec<Form>,
    pub helds: Vec<Form>,
    pub acts: Vec<Act>,
    pub faults: Vec<Fault>,
    pub met: Vec<Meeting>,
    pub ended: bool,
    pub used: usize,
}

impl Beside {
    /// Nothing was passed.
    pub fn new(alloc: Global) -> Beside
        ensures passed { (p : Reactions) → behind_all result p ≡ p }
        ensures used { result.used ≡ 0 }
    {
        Beside {
            residuals: Vec::new(alloc),
            helds: Vec::new(alloc),
            acts: Vec::new(alloc),
            faults: Vec::new(alloc),
            met: Vec::new(alloc),
            ended: true,
            used: 0,
        }
    }

    /// One part more reacted.
    pub fn with(self, alloc: Global, form: &Form, found: Found) -> Result<Beside, NoMemory>
        requires { self.used + found.used < 2 ^ 64 }
        ensures passed { IfOk result (λ b. (p : Reactions) →
            behind_all b p ≡ behind_all self (beside (reaction_of (term form.now) found) p)) }
        ensures used { IfOk result (λ b. b.used ≡ self.used + found.used) }
    {
        let residuals = with_last(self.residuals, found.residual)?;
        let held = held_form(alloc, found.held, form)?;
        let helds = with_last(self.helds, held)?;
        let acts = join(self.acts, found.acts)?;
        let faults = join(self.faults, found.faults)?;
        let met = join(self.met, found.met)?;
        let ended = both(self.ended, found.ended);
        Ok(Beside {
            residuals,
            helds,
            acts,
            faults,
            met,
            ended,
            used: self.used + found.used,
        })
    }

    /// All parts reacted.
    pub fn finish(self) -> Found
        ensures reaction { (t : Term) → reaction_of t result ≡ together (behind_all self (record {
          residuals = none;
          helds = none;
          acts = [];
          faults = [];
          met = [];
          ended = true;
        })) }
        ensures used { result.used ≡ self.used }
    {
        Found {
            residual: residual_beside(self.ended, self.residuals),
            held: Some(Form::Par(self.helds)),
            acts: self.acts,
            faults: self.faults,
            met: self.met,
            ended: self.ended,
            used: self.used,
        }
    }
}
