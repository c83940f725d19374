//! What choices and preemptions begin with, and how they end.

ghost use Rattle.std.specs.Prelude.{ℕ, IfOk};
ghost use Rattle.quartz_tree.specs.Tree.{tree as plain};
ghost use Rattle.quartz_expr.specs.Typed.{AreSound, IsTyped};
ghost use Rattle.statement_cells.specs.Surface.{suspended as plain_suspended};
ghost use Rattle.statement_builder.specs.Built.{Gives, Makes, Suspends};
ghost use Rattle.statement_builder.specs.Guards.{begun_abort, begun_guard, begun_immediate, begun_suspend, blocked as plain_blocked, ended_abort, ended_guard, ended_immediate, ended_suspend, first_side, other_side, waited as plain_waited, woken};

use crate::builder::Builder;
use crate::gates::plus;
use aif_cells::Ref;
use quartz_tree::{Expr, NoMemory, Var};
use std::alloc::Global;

/// The first side of a choice: its condition, and where it starts.
#[derive(Clone, Copy, Debug, PartialEq, Eq)]
pub(crate) struct Side {
    pub cond: Ref,
    pub go: Ref,
}

/// The form of a preemption.
#[derive(Clone, Copy, Debug, PartialEq, Eq)]
pub(crate) struct Preemption {
    pub abort: bool,
    pub weak: bool,
    pub immediate: bool,
}

/// What the body of a preemption starts or goes on with: its first label, where it starts or goes
/// on, and where control moves. Beside that the condition of the preemption.
#[derive(Clone, Copy, Debug, PartialEq, Eq)]
pub(crate) struct Guarded {
    pub cond: Ref,
    pub label: u32,
    pub go: Ref,
    pub step: Ref,
}

/// What the body of an abort goes on with, and where the abort is active.
#[derive(Clone, Copy, Debug, PartialEq, Eq)]
pub(crate) struct Stopped {
    pub inside: Ref,
    pub body: Guarded,
}

/// What the body of a suspension goes on with, and where its labels stay.
#[derive(Clone, Copy, Debug, PartialEq, Eq)]
pub(crate) struct Suspension {
    pub stay: Ref,
    pub body: Guarded,
}

impl Builder {
    /// The first side of a choice.
    pub(crate) fn first_side(
        &mut self,
        alloc: Global,
        vars: &[Var],
        cond: &Expr<u32>,
        go: Ref,
    ) -> Result<Side, NoMemory>
        requires types { AreSound vars.now }
        requires typed { IsTyped vars.now (plain cond.now) }
        ensures { IfOk result
            (λ s. Gives Side self.old self.new s (λ κ. first_side vars.now κ (plain cond.now) go)) }
    {
        let cond = self.test_cond(alloc, vars, cond, go)?;
        let go = self.and_of(alloc, go, cond)?;
        Ok(Side { cond, go })
    }

    /// Where the other side of a choice starts.
    pub(crate) fn other_side(&mut self, alloc: Global, cond: Ref, go: Ref) -> Result<Ref, NoMemory>
        ensures { IfOk result (λ r. Makes self.old self.new r (λ κ. other_side cond go)) }
    {
        let unless = self.not_of(alloc, cond)?;
        let made = self.and_of(alloc, go, unless)?;
        Ok(made)
    }

    // The condition blocks the moves of a weak preemption, and the body of a strong one.
    fn block_body(
        &mut self,
        alloc: Global,
        weak: bool,
        unless: Ref,
        body: Guarded,
    ) -> Result<Guarded, NoMemory>
        ensures { IfOk result
            (λ g. Gives Guarded self.old self.new g
            (λ κ. plain_blocked weak body.cond unless body.label body.go body.step)) }
    {
        if weak {
            let step = self.and_of(alloc, body.step, unless)?;
            return Ok(Guarded {
                cond: body.cond,
                label: body.label,
                go: body.go,
                step,
            });
        }
        let go = self.and_of(alloc, body.go, unless)?;
        Ok(Guarded {
            cond: body.cond,
            label: body.label,
            go,
            step: body.step,
        })
    }

    // A suspension that begins suspended enters its wait label. The first label of the body.
    fn enter_wait(
        &mut self,
        alloc: Global,
        abort: bool,
        label: u32,
        cond: Ref,
        go: Ref,
        step: Ref,
    ) -> Result<u32, NoMemory>
        ensures { IfOk result
            (λ l. Gives ℕ self.old self.new l (λ κ. plain_waited abort label cond go step)) }
    {
        if abort {
            return Ok(label);
        }
        let begins = self.and_of(alloc, go, cond)?;
        let waits = self.and_of(alloc, begins, step)?;
        self.enter(label, waits)?;
        let next = plus(label, 1)?;
        Ok(next)
    }

    fn begin_immediate(
        &mut self,
        alloc: Global,
        vars: &[Var],
        guard: Preemption,
        cond: &Expr<u32>,
        label: u32,
        go: Ref,
        step: Ref,
    ) -> Result<Guarded, NoMemory>
        requires types { AreSound vars.now }
        requires typed { IsTyped vars.now (plain cond.now) }
        ensures { IfOk result
            (λ g. Gives Guarded self.old self.new g
            (λ κ. begun_immediate vars.now κ guard.abort guard.weak
            (plain cond.now) label go step)) }
    {
        let cond = self.test_cond(alloc, vars, cond, go)?;
        let label = self.enter_wait(alloc, guard.abort, label, cond, go, step)?;
        let unless = self.not_of(alloc, cond)?;
        let body = Guarded {
            cond,
            label,
            go,
            step,
        };
        let begun = self.block_body(alloc, guard.weak, unless, body)?;
        Ok(begun)
    }

    /// What the body of a preemption starts with.
    pub(crate) fn begin_guard(
        &mut self,
        alloc: Global,
        vars: &[Var],
        guard: Preemption,
        cond: &Expr<u32>,
        label: u32,
        go: Ref,
        step: Ref,
    ) -> Result<Guarded, NoMemory>
        requires types { AreSound vars.now }
        requires typed { IsTyped vars.now (plain cond.now) }
        ensures { IfOk result
            (λ g. Gives Guarded self.old self.new g
            (λ κ. begun_guard vars.now κ guard.abort guard.weak guard.immediate
            (plain cond.now) label go step)) }
    {
        if guard.immediate {
            let begun = self.begin_immediate(alloc, vars, guard, cond, label, go, step)?;
            return Ok(begun);
        }
        Ok(Guarded {
            cond: Ref::Lit(0),
            label,
            go,
            step,
        })
    }

    fn end_immediate(
        &mut self,
        alloc: Global,
        guard: Preemption,
        cond: Ref,
        go: Ref,
        end: Ref,
    ) -> Result<Ref, NoMemory>
        ensures { IfOk result
            (λ r. Makes self.old self.new r
            (λ κ. ended_immediate guard.abort guard.weak cond go end)) }
    {
        if guard.abort {
            let aborted = self.end_abort(alloc, go, cond, end)?;
            return Ok(aborted);
        }
        let ended = self.end_suspend(alloc, guard.weak, cond, end)?;
        Ok(ended)
    }

    /// Where a preemption ends that starts.
    pub(crate) fn end_guard(
        &mut self,
        alloc: Global,
        guard: Preemption,
        cond: Ref,
        go: Ref,
        end: Ref,
    ) -> Result<Ref, NoMemory>
        ensures { IfOk result
            (λ r. Makes self.old self.new r
            (λ κ. ended_guard guard.abort guard.weak guard.immediate cond go end)) }
    {
        if guard.immediate {
            let ended = self.end_immediate(alloc, guard, cond, go, end)?;
            return Ok(ended);
        }
        Ok(end)
    }

    /// What the body of an abort goes on with, which has so many labels.
    pub(crate) fn begin_abort(
        &mut self,
        alloc: Global,
        vars: &[Var],
        weak: bool,
        cond: &Expr<u32>,
        label: u32,
        labels: u32,
        res: Ref,
        step: Ref,
    ) -> Result<Stopped, NoMemory>
        requires types { AreSound vars.now }
        requires typed { IsTyped vars.now (plain cond.now) }
        ensures { IfOk result
            (λ s. Gives Stopped self.old self.new s
            (λ κ. begun_abort vars.now κ weak (plain cond.now) label labels res step)) }
    {
        let within = self.in_of(alloc, label, labels)?;
        let inside = self.and_of(alloc, within, res)?;
        let cond = self.test_cond(alloc, vars, cond, inside)?;
        let unless = self.not_of(alloc, cond)?;
        let body = Guarded {
            cond,
            label,
            go: res,
            step,
        };
        let body = self.block_body(alloc, weak, unless, body)?;
        Ok(Stopped { inside, body })
    }

    /// Where an abort ends that goes on.
    pub(crate) fn end_abort(
        &mut self,
        alloc: Global,
        inside: Ref,
        cond: Ref,
        end: Ref,
    ) -> Result<Ref, NoMemory>
        ensures { IfOk result (λ r. Makes self.old self.new r (λ κ. ended_abort inside cond end)) }
    {
        let aborted = self.and_of(alloc, inside, cond)?;
        let made = self.or_of(alloc, end, aborted)?;
        Ok(made)
    }

    // Where the labels of a suspension stay, and its condition.
    fn suspend_labels(
        &mut self,
        alloc: Global,
        vars: &[Var],
        cond: &Expr<u32>,
        label: u32,
        labels: u32,
        res: Ref,
        step: Ref,
        stay: Ref,
    ) -> Result<(Ref, Ref), NoMemory>
        requires types { AreSound vars.now }
        requires typed { IsTyped vars.now (plain cond.now) }
        ensures { IfOk result
            (λ s. Suspends vars.now self.old self.new s.0 s.1
            (λ κ. plain_suspended vars.now κ label labels (plain cond.now) res step stay)) }
    {
        let within = self.in_of(alloc, label, labels)?;
        let inside = self.and_of(alloc, within, res)?;
        let cond = self.test_cond(alloc, vars, cond, inside)?;
        let moves = self.and_of(alloc, step, inside)?;
        let rests = self.and_of(alloc, moves, cond)?;
        let stays = self.or_of(alloc, stay, rests)?;
        Ok((cond, stays))
    }

    /// What the body of a suspension goes on with, which has so many labels with its wait label.
    pub(crate) fn begin_suspend(
        &mut self,
        alloc: Global,
        vars: &[Var],
        weak: bool,
        cond: &Expr<u32>,
        label: u32,
        labels: u32,
        res: Ref,
        step: Ref,
        stay: Ref,
    ) -> Result<Suspension, NoMemory>
        requires types { AreSound vars.now }
        requires typed { IsTyped vars.now (plain cond.now) }
        ensures { IfOk result
            (λ s. Gives Suspension self.old self.new s
            (λ κ. begun_suspend vars.now κ weak (plain cond.now) label labels res step stay)) }
    {
        let (cond, stay) = self.suspend_labels(alloc, vars, cond, label, labels, res, step, stay)?;
        let unless = self.not_of(alloc, cond)?;
        let body = Guarded {
            cond,
            label,
            go: res,
            step,
        };
        let body = self.block_body(alloc, weak, unless, body)?;
        Ok(Suspension { stay, body })
    }

    /// The wait label stays, and starts the body of its suspension.
    pub(crate) fn wake(
        &mut self,
        alloc: Global,
        label: u32,
        go: Ref,
        stay: Ref,
    ) -> Result<Ref, NoMemory>
        ensures { IfOk result (λ r. Makes self.old self.new r (λ κ. woken label go stay)) }
    {
        self.stay_at(label, stay)?;
        let made = self.and_of(alloc, Ref::Reg(label), go)?;
        Ok(made)
    }

    /// Where a suspension ends that goes on.
    pub(crate) fn end_suspend(
        &mut self,
        alloc: Global,
        weak: bool,
        cond: Ref,
        end: Ref,
    ) -> Result<Ref, NoMemory>
        ensures { IfOk result (λ r. Makes self.old self.new r (λ κ. ended_suspend weak cond end)) }
    {
        if weak {
            let unless = self.not_of(alloc, cond)?;
            let made = self.and_of(alloc, end, unless)?;
            return Ok(made);
        }
        Ok(end)
    }
}
