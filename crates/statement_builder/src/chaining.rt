//! The scopes around a statement: a loop opens them from the outermost inwards, and closes them
//! from the innermost outwards.

ghost use Rattle.std.specs.Prelude.{ℕ, ◌≡◌, ◌≢◌, false, reverse, true, IfOk, OnOk};
ghost use Rattle.aif_cells.specs.declared.reference.Ref.{Ref as AnyRef};
ghost use Rattle.quartz_tree.specs.Kernel.{kernel};
ghost use Rattle.quartz_expr.specs.Terms.{term_of};
ghost use Rattle.quartz_names.specs.Unscoped.{unscoped};
ghost use Rattle.statement_cells.specs.Sound.{IsSound};
ghost use Rattle.statement_cells.specs.Surface.{depth, scope_resumed, scope_started, surface};
ghost use Rattle.statement_builder.specs.Built.{IsOver};
ghost use Rattle.statement_builder.specs.Scopes.{Ends, EndsAll, OpensAll};
ghost use Rattle.statement_builder.specs.Shorts.{is_zero as plain_is_zero};

use crate::builder::{Builder, DepthCopy, EnteredCopy};
use crate::counting::scope_registers;
use crate::gates::plus;
use crate::scoping::Scope;
use aif_cells::Ref;
use quartz_tree::{NoMemory, Stmt, Var};
use reincarnation::Entered;
use std::alloc::Global;

/// The scopes that were opened around a statement, the innermost last, and the first register of
/// the scopes inside it.
#[derive(Debug, Drop)]
pub(crate) struct Chain {
    pub scopes: Vec<Scope>,
    pub register: u32,
}

impl Builder {
    /// Opens the scopes around a statement, which has so many labels.
    pub(crate) fn open_scopes(
        &mut self,
        alloc: Global,
        vars: &[Var],
        stmt: &Stmt,
        stored: bool,
        labels: u32,
        first: u32,
    ) -> Result<Chain, NoMemory>
        requires over { IsOver vars.now self.old }
        requires sound { IsSound vars.now (term_of (kernel stmt.now)) }
        ensures { IfOk result
            (λ c. OpensAll vars.now self.old stored labels first (term_of (kernel stmt.now))
            (reverse c.scopes.items) c.register (term_of (unscoped (kernel stmt.now))) self.new) }
    {
        let mut scopes = Vec::new(alloc);
        let mut register = first;
        let mut inner = stmt;
        while let Stmt::Local { var, body } = inner {
            let scope = self.open_scope(alloc, vars, *var, stored, register)?;
            register = plus(register, scope_registers(vars, labels, *var)?)?;
            scopes.push(scope)?;
            inner = body;
        }
        Ok(Chain { scopes, register })
    }

    // Closes the copy without store of a scope with so many labels, and says where it is still
    // active behind the step.
    fn end_started(
        &mut self,
        alloc: Global,
        vars: &[Var],
        scope: Scope,
        labels: u32,
        go: Ref,
        step: Ref,
        end: Ref,
    ) -> Result<(), NoMemory>
        requires { IsOver vars.now self.old }
        ensures { OnOk result
            (Ends vars.now self.old scope false end
            (scope_started vars.now scope.var labels scope.first go step) self.new) }
    {
        let var = scope.var;
        let first = scope.first;
        let registers = scope_registers(vars, labels, var)?;
        let closed = self.close_scope(alloc, vars, scope)?;
        if registers == 0 {
            return Ok(());
        }
        let moves = self.and_of(alloc, go, step)?;
        let unless = self.not_of(alloc, end)?;
        let enter = self.and_of(alloc, moves, unless)?;
        self.entered.push(EnteredCopy {
            var,
            first,
            entered: Entered { enter, closed },
        })?;
        Ok(())
    }

    // Closes the copy with store of a scope with so many labels.
    fn end_resumed(
        &mut self,
        alloc: Global,
        vars: &[Var],
        scope: Scope,
        label: u32,
        labels: u32,
        end: Ref,
    ) -> Result<(), NoMemory>
        requires { IsOver vars.now self.old }
        ensures { OnOk result
            ((res : AnyRef) → Ends vars.now self.old scope true end
            (scope_resumed vars.now scope.var label labels scope.first res) self.new) }
    {
        let var = scope.var;
        let first = scope.first;
        let registers = scope_registers(vars, labels, var)?;
        let closed = self.close_scope(alloc, vars, scope)?;
        if registers == 0 {
            return Ok(());
        }
        self.depths.push(DepthCopy {
            var,
            label,
            labels,
            first,
            closed,
        })?;
        Ok(())
    }

    /// Ends scopes that started, from the innermost outwards.
    pub(crate) fn end_all_started(
        &mut self,
        alloc: Global,
        vars: &[Var],
        scopes: Vec<Scope>,
        labels: u32,
        go: Ref,
        step: Ref,
        end: Ref,
    ) -> Result<(), NoMemory>
        requires over { IsOver vars.now self.old }
        requires starts { plain_is_zero go ≡ false }
        ensures { OnOk result
            ((label : ℕ) → EndsAll vars.now self.old false labels (reverse scopes.items) end
            (λ s. surface vars.now s.copies label s.register s.term go step s.built) self.new) }
    {
        let mut left = scopes;
        while let Some(scope) = left.pop() {
            self.end_started(alloc, vars, scope, labels, go, step, end)?;
        }
        Ok(())
    }

    /// Ends scopes that went on, from the innermost outwards.
    pub(crate) fn end_all_resumed(
        &mut self,
        alloc: Global,
        vars: &[Var],
        scopes: Vec<Scope>,
        label: u32,
        labels: u32,
        end: Ref,
    ) -> Result<(), NoMemory>
        requires over { IsOver vars.now self.old }
        requires some { labels ≢ 0 }
        ensures { OnOk result
            ((res step stay : AnyRef)
            → EndsAll vars.now self.old true labels (reverse scopes.items) end
            (λ s. depth vars.now s.copies label s.register s.term res step stay s.built) self.new) }
    {
        let mut left = scopes;
        while let Some(scope) = left.pop() {
            self.end_resumed(alloc, vars, scope, label, labels, end)?;
        }
        Ok(())
    }
}
