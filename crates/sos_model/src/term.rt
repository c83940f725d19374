//! Terms: forms over variables that can react.

ghost use Rattle.std.specs.Prelude.{◌≡◌, true, IfOk};
ghost use Rattle.quartz_tree.specs.Kernel.{kernel};
ghost use Rattle.quartz_expr.specs.Terms.{term_of};
ghost use Rattle.quartz_expr.specs.Tick.{tick as advanced_term};
ghost use Rattle.quartz_expr.specs.Typed.{AreSound};
ghost use Rattle.sos_model.specs.FormTerms.{term};
ghost use Rattle.sos_model.specs.Sound.{are_sound_vars, is_sound};

use crate::form::Form;
use crate::starting::start_form;
use crate::ticking::tick_form;
use quartz_tree::{Copied, NoMemory, Stmt, Var};
use sqlite_items::Items;
use std::alloc::Global;

/// A term of the semantics beside its variables. It can react: its expressions are typed over the
/// variables, and no loop has a body that may be instant.
#[derive(Debug, Drop)]
pub struct Term {
    pub(crate) form: Form,
    vars: Items<Var>,
    pub ghost sound: { is_sound vars (term form) ≡ true },
    pub ghost sound_vars: { are_sound_vars vars ≡ true },
}

fn copied_vars(alloc: Global, vars: &[Var]) -> Result<Items<Var>, NoMemory>
    ensures { IfOk result (λ v. v ≡ vars.now) }
{
    let mut all = Items::new(alloc);
    for var in vars {
        all.push(Var {
            decl: var.decl.copied(alloc)?,
            delayed: var.delayed,
            start: var.start,
        })?;
    }
    Ok(all)
}

impl Term {
    /// The term of a statement over the variables. Its scopes have no store.
    #[tactic(auto, using(crate::proofs::AnswerLemmas::test_of_vars))]
    pub fn start(alloc: Global, body: &Stmt, vars: &[Var]) -> Result<Term, NoMemory>
        requires vars { AreSound vars.now }
        requires sound { is_sound vars.now (term_of (kernel body.now)) ≡ true }
        ensures term { IfOk result (λ t. term t.form ≡ term_of (kernel body.now)) }
        ensures vars { IfOk result (λ t. t.vars ≡ vars.now) }
    {
        Ok(Term {
            form: start_form(alloc, body)?,
            vars: copied_vars(alloc, vars)?,
        })
    }

    /// The term of another form over the same variables.
    pub(crate) fn with_form(&self, alloc: Global, form: Form) -> Result<Term, NoMemory>
        requires { is_sound self.now.vars (term form) ≡ true }
        ensures form { IfOk result (λ t. t.form ≡ form) }
        ensures vars { IfOk result (λ t. t.vars ≡ self.now.vars) }
    {
        Ok(Term {
            form,
            vars: copied_vars(alloc, self.vars.as_slice())?,
        })
    }

    /// The form of the term.
    pub fn form(&self) -> &Form
        ensures { result.now ≡ self.now.form }
    {
        &self.form
    }

    /// The variables of the term.
    pub fn vars(&self) -> &[Var]
        ensures { result.now ≡ self.now.vars }
    {
        self.vars.as_slice()
    }
}

/// The term once each store in it has gone through a macro step with no writes.
#[tactic(auto, using(crate::proofs::SoundLemmas::stays_sound))]
pub fn tick(alloc: Global, before: &Term) -> Result<Term, NoMemory>
    ensures term { IfOk result (λ t. term t.form
        ≡ advanced_term before.now.vars (term before.now.form)) }
    ensures vars { IfOk result (λ t. t.vars ≡ before.now.vars) }
{
    Ok(Term {
        form: tick_form(alloc, &before.form, before.vars.as_slice())?,
        vars: copied_vars(alloc, before.vars.as_slice())?,
    })
}
