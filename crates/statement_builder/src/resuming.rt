//! The depth of a statement, which goes on from its labels.

ghost use Rattle.std.specs.Prelude.{◌≡◌, false, length, map, IfOk};
ghost use Rattle.quartz_tree.specs.Kernel.{kernel, kernels};
ghost use Rattle.quartz_tree.specs.Tree.{tree as plain};
ghost use Rattle.quartz_expr.specs.Terms.{guard_of, suspend, term_of, terms_of};
ghost use Rattle.quartz_expr.specs.Typed.{AreSound, IsTyped};
ghost use Rattle.statement_cells.specs.Labels.{labels as labels_of};
ghost use Rattle.statement_cells.specs.Builder.{zero_ref};
ghost use Rattle.statement_cells.specs.Sound.{AreSound as AllSound, IsSound};
ghost use Rattle.statement_cells.specs.Surface.{depth as plain_depth, resume as plain_resume, resume_each as plain_resume_each, resume_in_turn as plain_resume_in_turn};
ghost use Rattle.statement_builder.specs.Built.{Gives, IsOver, Makes, MakesAll};
ghost use Rattle.statement_builder.specs.Chains.{is_scope as plain_is_scope};
ghost use Rattle.statement_builder.specs.Resumes.{paused_on, repeats, woken_body};

use crate::builder::Builder;
use crate::counting::{Numbers, count, is_scope};
use crate::gates::plus;
use crate::guarding::{Guarded, Preemption, Side};
use aif_cells::Ref;
use quartz_names::unscoped;
use quartz_tree::{Expr, NoMemory, Stmt, Var};
use sqlite_items::Items;
use std::alloc::Global;

impl Builder {
    // A pause that goes on: its label stays, and it ends.
    fn resume_pause(
        &mut self,
        alloc: Global,
        label: u32,
        res: Ref,
        stay: Ref,
    ) -> Result<Ref, NoMemory>
        ensures { IfOk result (λ r. Makes self.old self.new r (λ κ. paused_on label res stay)) }
    {
        self.stay_at(label, stay)?;
        let end = self.and_of(alloc, Ref::Reg(label), res)?;
        Ok(end)
    }

    // Where the body of a loop starts again, with the loop's condition.
    fn repeat(
        &mut self,
        alloc: Global,
        vars: &[Var],
        cond: &Expr<u32>,
        end: Ref,
    ) -> Result<Side, NoMemory>
        requires types { AreSound vars.now }
        requires typed { IsTyped vars.now (plain cond.now) }
        ensures { IfOk result
            (λ s. Gives Side self.old self.new s (λ κ. repeats vars.now κ (plain cond.now) end)) }
    {
        let cond = self.test_cond(alloc, vars, cond, end)?;
        let go = self.and_of(alloc, end, cond)?;
        Ok(Side { cond, go })
    }

    // What the body of an immediate suspension goes on with is also where it starts from the wait
    // label.
    fn wake_body(
        &mut self,
        alloc: Global,
        vars: &[Var],
        body: &Stmt,
        first: Numbers,
        inside: Guarded,
        stay: Ref,
    ) -> Result<Ref, NoMemory>
        requires types { AreSound vars.now }
        requires over { IsOver vars.now self.old }
        requires sound { IsSound vars.now (term_of (kernel body.now)) }
        ensures { IfOk result
            (λ r. Makes self.old self.new r
            (λ κ. woken_body vars.now κ first.label first.register
            (term_of (kernel body.now)) inside.label inside.go inside.step stay)) }
    {
        let go = self.wake(alloc, inside.label, inside.go, stay)?;
        let end = self.surface(alloc, vars, body, first, go, inside.step)?;
        Ok(end)
    }

    /// The cells of a statement that goes on from its labels where `res` isn't 0, and the reference
    /// of where it ends. Control moves only where `step` isn't 0, and labels stay where `stay`
    /// isn't 0. The labels of the statement and the registers of its scopes begin at these numbers.
    ///
    /// After an error the builder is to be dropped.
    #[cycle(depth)]
    pub fn depth(
        &mut self,
        alloc: Global,
        vars: &[Var],
        stmt: &Stmt,
        first: Numbers,
        res: Ref,
        step: Ref,
        stay: Ref,
    ) -> Result<Ref, NoMemory>
        requires types { AreSound vars.now }
        requires over { IsOver vars.now self.old }
        requires sound { IsSound vars.now (term_of (kernel stmt.now)) }
        ensures { IfOk result
            (λ r. Makes self.old self.new r
            (λ κ. plain_depth vars.now κ first.label first.register
            (term_of (kernel stmt.now)) res step stay)) }
    {
        let labels = count(stmt, vars)?.labels;
        if labels == 0 {
            return Ok(Ref::Lit(0));
        }
        if !is_scope(stmt) {
            let end = self.resume(alloc, vars, stmt, labels, first, res, step, stay)?;
            return Ok(end);
        }
        let chain = self.open_scopes(alloc, vars, stmt, true, labels, first.register)?;
        let inside = Numbers {
            label: first.label,
            register: chain.register,
        };
        let end = self.resume(alloc, vars, unscoped(stmt), labels, inside, res, step, stay)?;
        self.end_all_resumed(alloc, vars, chain.scopes, first.label, labels, end)?;
        Ok(end)
    }

    // A statement that is no scope and has so many labels, which are some.
    #[cycle(depth)]
    fn resume(
        &mut self,
        alloc: Global,
        vars: &[Var],
        stmt: &Stmt,
        labels: u32,
        first: Numbers,
        res: Ref,
        step: Ref,
        stay: Ref,
    ) -> Result<Ref, NoMemory>
        requires types { AreSound vars.now }
        requires over { IsOver vars.now self.old }
        requires sound { IsSound vars.now (term_of (kernel stmt.now)) }
        requires inside { plain_is_scope (kernel stmt.now) ≡ false }
        requires labels { labels ≡ labels_of (term_of (kernel stmt.now)) }
        ensures { IfOk result
            (λ r. Makes self.old self.new r
            (λ κ. plain_resume vars.now κ first.label first.register
            (term_of (kernel stmt.now)) res step stay)) }
    {
        match stmt {
            Stmt::Nothing => Ok(Ref::Lit(0)),
            Stmt::Pause => {
                let end = self.resume_pause(alloc, first.label, res, stay)?;
                Ok(end)
            }
            Stmt::Write { .. } => Ok(Ref::Lit(0)),
            Stmt::Choose { yes, no, .. } => {
                let yes_end = self.depth(alloc, vars, yes, first, res, step, stay)?;
                let second = first.behind(yes, vars)?;
                let no_end = self.depth(alloc, vars, no, second, res, step, stay)?;
                let end = self.or_of(alloc, yes_end, no_end)?;
                Ok(end)
            }
            Stmt::Seq(parts) => {
                let end = self.resume_in_turn(alloc, vars, parts, first, res, step, stay)?;
                Ok(end)
            }
            Stmt::Par(parts) => {
                let ends = self.resume_each(alloc, vars, parts, first, res, step, stay)?;
                let end = self.end_parallel(alloc, vars, first.label, parts, ends.as_slice(), res)?;
                Ok(end)
            }
            Stmt::Loop { body, cond, .. } => {
                let body_end = self.depth(alloc, vars, body, first, res, step, stay)?;
                let side = self.repeat(alloc, vars, cond, body_end)?;
                self.surface(alloc, vars, body, first, side.go, step)?;
                let end = self.other_side(alloc, side.cond, body_end)?;
                Ok(end)
            }
            Stmt::Guard {
                abort,
                weak,
                immediate,
                body,
                cond,
            } => {
                let guard = Preemption {
                    abort: *abort,
                    weak: *weak,
                    immediate: *immediate,
                };
                let end = self.resume_guard(
                    alloc, vars, guard, body, cond, labels, first, res, step, stay,
                )?;
                Ok(end)
            }
            Stmt::Local { .. } => unreachable!(),
        }
    }

    // A preemption that has so many labels.
    #[cycle(depth)]
    fn resume_guard(
        &mut self,
        alloc: Global,
        vars: &[Var],
        guard: Preemption,
        body: &Stmt,
        cond: &Expr<u32>,
        labels: u32,
        first: Numbers,
        res: Ref,
        step: Ref,
        stay: Ref,
    ) -> Result<Ref, NoMemory>
        requires types { AreSound vars.now }
        requires over { IsOver vars.now self.old }
        requires typed { IsTyped vars.now (plain cond.now) }
        requires sound { IsSound vars.now (term_of (kernel body.now)) }
        requires labels { labels
            ≡ labels_of (guard_of guard.abort guard.weak guard.immediate (term_of (kernel body.now))
            (plain cond.now)) }
        ensures { IfOk result
            (λ r. Makes self.old self.new r
            (λ κ. plain_resume vars.now κ first.label first.register
            (guard_of guard.abort guard.weak guard.immediate (term_of (kernel body.now))
            (plain cond.now)) res step stay)) }
    {
        if guard.abort {
            let begun = self.begin_abort(
                alloc,
                vars,
                guard.weak,
                cond,
                first.label,
                labels,
                res,
                step,
            )?;
            let inside = begun.body;
            let body_end = self.depth(alloc, vars, body, first, inside.go, inside.step, stay)?;
            let end = self.end_abort(alloc, begun.inside, inside.cond, body_end)?;
            return Ok(end);
        }
        let end = self.resume_suspend(
            alloc, vars, guard, body, cond, labels, first, res, step, stay,
        )?;
        Ok(end)
    }

    // A suspension that has so many labels.
    #[cycle(depth)]
    fn resume_suspend(
        &mut self,
        alloc: Global,
        vars: &[Var],
        guard: Preemption,
        body: &Stmt,
        cond: &Expr<u32>,
        labels: u32,
        first: Numbers,
        res: Ref,
        step: Ref,
        stay: Ref,
    ) -> Result<Ref, NoMemory>
        requires types { AreSound vars.now }
        requires over { IsOver vars.now self.old }
        requires typed { IsTyped vars.now (plain cond.now) }
        requires sound { IsSound vars.now (term_of (kernel body.now)) }
        requires labels { labels
            ≡ labels_of (suspend guard.weak guard.immediate (term_of (kernel body.now))
            (plain cond.now)) }
        ensures { IfOk result
            (λ r. Makes self.old self.new r
            (λ κ. plain_resume vars.now κ first.label first.register
            (suspend guard.weak guard.immediate (term_of (kernel body.now))
            (plain cond.now)) res step stay)) }
    {
        let begun = self.begin_suspend(
            alloc,
            vars,
            guard.weak,
            cond,
            first.label,
            labels,
            res,
            step,
            stay,
        )?;
        let inside = begun.body;
        let stay = begun.stay;
        if guard.immediate {
            let behind = Numbers {
                label: plus(first.label, 1)?,
                register: first.register,
            };
            let woken = self.wake_body(alloc, vars, body, behind, inside, stay)?;
            let resumed = self.depth(alloc, vars, body, behind, inside.go, inside.step, stay)?;
            let either = self.or_of(alloc, woken, resumed)?;
            let end = self.end_suspend(alloc, guard.weak, inside.cond, either)?;
            return Ok(end);
        }
        let resumed = self.depth(alloc, vars, body, first, inside.go, inside.step, stay)?;
        let end = self.end_suspend(alloc, guard.weak, inside.cond, resumed)?;
        Ok(end)
    }

    // Each part goes on from its labels, and starts where the one before ends.
    #[cycle(depth)]
    fn resume_in_turn(
        &mut self,
        alloc: Global,
        vars: &[Var],
        parts: &[Stmt],
        first: Numbers,
        res: Ref,
        step: Ref,
        stay: Ref,
    ) -> Result<Ref, NoMemory>
        requires types { AreSound vars.now }
        requires over { IsOver vars.now self.old }
        requires sound { AllSound vars.now (terms_of (kernels (map kernel parts.now))) }
        ensures { IfOk result
            (λ r. Makes self.old self.new r
            (λ κ. plain_resume_in_turn vars.now κ first.label first.register
            (terms_of (kernels (map kernel parts.now))) zero_ref res step stay)) }
    {
        let mut at = first;
        let mut end = Ref::Lit(0);
        for part in parts {
            let started = self.surface(alloc, vars, part, at, end, step)?;
            let resumed = self.depth(alloc, vars, part, at, res, step, stay)?;
            end = self.or_of(alloc, started, resumed)?;
            at = at.behind(part, vars)?;
        }
        Ok(end)
    }

    // All parts go on; where each of them ends.
    #[cycle(depth)]
    fn resume_each(
        &mut self,
        alloc: Global,
        vars: &[Var],
        parts: &[Stmt],
        first: Numbers,
        res: Ref,
        step: Ref,
        stay: Ref,
    ) -> Result<Items<Ref>, NoMemory>
        requires types { AreSound vars.now }
        requires over { IsOver vars.now self.old }
        requires sound { AllSound vars.now (terms_of (kernels (map kernel parts.now))) }
        ensures made { IfOk result
            (λ rs. MakesAll self.old self.new rs
            (λ κ. plain_resume_each vars.now κ first.label first.register
            (terms_of (kernels (map kernel parts.now))) res step stay)) }
        ensures count { IfOk result (λ rs. length rs ≡ length parts.now) }
    {
        let mut at = first;
        let mut ends = Items::new(alloc);
        for part in parts {
            ends.push(self.depth(alloc, vars, part, at, res, step, stay)?)?;
            at = at.behind(part, vars)?;
        }
        Ok(ends)
    }
}
