//! The surface of a statement, which starts it.

ghost use Rattle.std.specs.Prelude.{◌≡◌, false, map, IfOk};
ghost use Rattle.quartz_tree.specs.Kernel.{kernel, kernels};
ghost use Rattle.quartz_expr.specs.Terms.{term_of, terms_of};
ghost use Rattle.quartz_expr.specs.Typed.{AreSound};
ghost use Rattle.statement_cells.specs.Sound.{AreSound as AllSound, IsSound};
ghost use Rattle.statement_cells.specs.Surface.{start as plain_start, start_each as plain_start_each, start_in_turn as plain_start_in_turn, surface as plain_surface};
ghost use Rattle.statement_builder.specs.Built.{IsOver, Makes, MakesAll};
ghost use Rattle.statement_builder.specs.Chains.{is_scope as plain_is_scope};
ghost use Rattle.statement_builder.specs.Starts.{paused};

use crate::builder::Builder;
use crate::counting::{Numbers, count, is_scope};
use crate::gates::is_zero;
use crate::guarding::Preemption;
use crate::testing::Write;
use aif_cells::Ref;
use quartz_names::unscoped;
use quartz_tree::{NoMemory, Stmt, Var};
use sqlite_items::Items;
use std::alloc::Global;

impl Builder {
    // A pause that starts: its label is entered.
    fn start_pause(
        &mut self,
        alloc: Global,
        label: u32,
        go: Ref,
        step: Ref,
    ) -> Result<Ref, NoMemory>
        ensures { IfOk result (λ r. Makes self.old self.new r (λ κ. paused label go step)) }
    {
        let entered = self.and_of(alloc, go, step)?;
        self.enter(label, entered)?;
        Ok(Ref::Lit(0))
    }

    /// The cells that start a statement where `go` isn't 0, and the reference of where it ends.
    /// Control comes to rest in the statement only where `step` isn't 0. The labels of the
    /// statement and the registers of its scopes begin at these numbers.
    ///
    /// After an error the builder is to be dropped.
    #[cycle(surface)]
    pub fn surface(
        &mut self,
        alloc: Global,
        vars: &[Var],
        stmt: &Stmt,
        first: Numbers,
        go: Ref,
        step: Ref,
    ) -> Result<Ref, NoMemory>
        requires types { AreSound vars.now }
        requires over { IsOver vars.now self.old }
        requires sound { IsSound vars.now (term_of (kernel stmt.now)) }
        ensures { IfOk result
            (λ r. Makes self.old self.new r
            (λ κ. plain_surface vars.now κ first.label first.register
            (term_of (kernel stmt.now)) go step)) }
    {
        if is_zero(go) {
            return Ok(Ref::Lit(0));
        }
        if !is_scope(stmt) {
            let end = self.start(alloc, vars, stmt, first, go, step)?;
            return Ok(end);
        }
        let labels = count(stmt, vars)?.labels;
        let chain = self.open_scopes(alloc, vars, stmt, false, labels, first.register)?;
        let inside = Numbers {
            label: first.label,
            register: chain.register,
        };
        let end = self.start(alloc, vars, unscoped(stmt), inside, go, step)?;
        self.end_all_started(alloc, vars, chain.scopes, labels, go, step, end)?;
        Ok(end)
    }

    // Starts a statement that is no scope, where `go` isn't the literal 0.
    #[cycle(surface)]
    fn start(
        &mut self,
        alloc: Global,
        vars: &[Var],
        stmt: &Stmt,
        first: Numbers,
        go: Ref,
        step: Ref,
    ) -> Result<Ref, NoMemory>
        requires types { AreSound vars.now }
        requires over { IsOver vars.now self.old }
        requires sound { IsSound vars.now (term_of (kernel stmt.now)) }
        requires inside { plain_is_scope (kernel stmt.now) ≡ false }
        ensures { IfOk result
            (λ r. Makes self.old self.new r
            (λ κ. plain_start vars.now κ first.label first.register
            (term_of (kernel stmt.now)) go step)) }
    {
        match stmt {
            Stmt::Nothing => Ok(go),
            Stmt::Pause => {
                let end = self.start_pause(alloc, first.label, go, step)?;
                Ok(end)
            }
            Stmt::Write {
                var,
                index,
                value,
                delayed,
                place,
                target_place,
            } => {
                let write = Write {
                    var: *var,
                    index,
                    value,
                    delayed: *delayed,
                    place: *place,
                    target_place: *target_place,
                };
                self.write(alloc, vars, write, go)?;
                Ok(go)
            }
            Stmt::Choose { cond, yes, no } => {
                let side = self.first_side(alloc, vars, cond, go)?;
                let yes_end = self.surface(alloc, vars, yes, first, side.go, step)?;
                let other = self.other_side(alloc, side.cond, go)?;
                let second = first.behind(yes, vars)?;
                let no_end = self.surface(alloc, vars, no, second, other, step)?;
                let end = self.or_of(alloc, yes_end, no_end)?;
                Ok(end)
            }
            Stmt::Seq(parts) => {
                let end = self.start_in_turn(alloc, vars, parts, first, go, step)?;
                Ok(end)
            }
            Stmt::Par(parts) => {
                let ends = self.start_each(alloc, vars, parts, first, go, step)?;
                let end = self.and_all(alloc, go, ends.as_slice())?;
                Ok(end)
            }
            Stmt::Loop { body, .. } => {
                self.surface(alloc, vars, body, first, go, step)?;
                Ok(Ref::Lit(0))
            }
            Stmt::Guard {
                abort,
                weak,
                immediate,
                body,
                cond,
            } => {
                let guard = Preemption {
                    abort: *abort,
                    weak: *weak,
                    immediate: *immediate,
                };
                let begun = self.begin_guard(alloc, vars, guard, cond, first.label, go, step)?;
                let inside = Numbers {
                    label: begun.label,
                    register: first.register,
                };
                let body_end = self.surface(alloc, vars, body, inside, begun.go, begun.step)?;
                let end = self.end_guard(alloc, guard, begun.cond, go, body_end)?;
                Ok(end)
            }
            Stmt::Local { .. } => unreachable!(),
        }
    }

    // Each part starts where the one before ends.
    #[cycle(surface)]
    fn start_in_turn(
        &mut self,
        alloc: Global,
        vars: &[Var],
        parts: &[Stmt],
        first: Numbers,
        go: Ref,
        step: Ref,
    ) -> Result<Ref, NoMemory>
        requires types { AreSound vars.now }
        requires over { IsOver vars.now self.old }
        requires sound { AllSound vars.now (terms_of (kernels (map kernel parts.now))) }
        ensures { IfOk result
            (λ r. Makes self.old self.new r
            (λ κ. plain_start_in_turn vars.now κ first.label first.register
            (terms_of (kernels (map kernel parts.now))) go step)) }
    {
        let mut at = first;
        let mut end = go;
        for part in parts {
            end = self.surface(alloc, vars, part, at, end, step)?;
            at = at.behind(part, vars)?;
        }
        Ok(end)
    }

    // All parts start; where each of them ends.
    #[cycle(surface)]
    fn start_each(
        &mut self,
        alloc: Global,
        vars: &[Var],
        parts: &[Stmt],
        first: Numbers,
        go: Ref,
        step: Ref,
    ) -> Result<Items<Ref>, NoMemory>
        requires types { AreSound vars.now }
        requires over { IsOver vars.now self.old }
        requires sound { AllSound vars.now (terms_of (kernels (map kernel parts.now))) }
        ensures { IfOk result
            (λ rs. MakesAll self.old self.new rs
            (λ κ. plain_start_each vars.now κ first.label first.register
            (terms_of (kernels (map kernel parts.now))) go step)) }
    {
        let mut at = first;
        let mut ends = Items::new(alloc);
        for part in parts {
            ends.push(self.surface(alloc, vars, part, at, go, step)?)?;
            at = at.behind(part, vars)?;
        }
        Ok(ends)
    }
}
