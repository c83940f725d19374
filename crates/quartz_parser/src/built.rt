//! The forms of statement, made of their parts.

ghost use Rattle.std.specs.Prelude.{◌≡◌, map, IfOk};
ghost use Rattle.quartz_tree.specs.Tree.{tree};
ghost use Rattle.quartz_tree.specs.Surfaces as plain;
ghost use Rattle.quartz_tree.specs.Surfaces.{written, goal_of, branch, branches_of};

use quartz_tree::{Arg, Decl, Expr, Name, NoMemory, Place, Surface, Target};
use std::alloc::Global;

#[tactic(auto, using(quartz_tree::proofs::SurfaceLemmas::written_empty))]
pub fn empty() -> Surface
    ensures { written result ≡ plain.empty }
{
    Surface::Empty
}

#[tactic(auto, using(quartz_tree::proofs::SurfaceLemmas::written_pause))]
pub fn pause() -> Surface
    ensures { written result ≡ plain.pause }
{
    Surface::Pause
}

#[tactic(auto, using(quartz_tree::proofs::SurfaceLemmas::written_halt))]
pub fn halt(place: Place) -> Surface
    ensures { written result ≡ plain.halt place }
{
    Surface::Halt { place }
}

#[tactic(auto, using(quartz_tree::proofs::SurfaceLemmas::written_await))]
pub fn wait(immediate: bool, cond: Expr<Name>, place: Place) -> Surface
    ensures { written result ≡ plain.await immediate (tree cond) place }
{
    Surface::Await {
        immediate,
        cond,
        place,
    }
}

#[tactic(auto, using(quartz_tree::proofs::SurfaceLemmas::written_emit))]
pub fn emit(delayed: bool, target: Target, place: Place) -> Surface
    ensures { written result ≡ plain.emit delayed (goal_of target) place }
{
    Surface::Emit {
        delayed,
        target,
        place,
    }
}

#[tactic(auto, using(quartz_tree::proofs::SurfaceLemmas::written_write))]
pub fn write(delayed: bool, target: Target, value: Expr<Name>, place: Place) -> Surface
    ensures { written result ≡ plain.write delayed (goal_of target) (tree value) place }
{
    Surface::Write {
        delayed,
        target,
        value,
        place,
    }
}

#[tactic(auto, using(quartz_tree::proofs::SurfaceLemmas::written_block))]
pub fn block(decls: Vec<Decl>, branches: Vec<Vec<Surface>>) -> Surface
    ensures { written result ≡ plain.block decls.items
        (branches_of (map (λ b. branch (map written b.items)) branches.items)) }
{
    Surface::Block { decls, branches }
}

#[tactic(auto, using(quartz_tree::proofs::SurfaceLemmas::written_if_none))]
pub fn only_if(alloc: Global, cond: Expr<Name>, yes: Surface) -> Result<Surface, NoMemory>
    ensures { IfOk result (λ s. written s ≡ plain.choose_one (tree cond) (written yes)) }
{
    let yes = Box::new(alloc, yes)?;
    let no = None;
    Ok(Surface::If { cond, yes, no })
}

#[tactic(auto, using(quartz_tree::proofs::SurfaceLemmas::written_if_some))]
pub fn if_else(
    alloc: Global,
    cond: Expr<Name>,
    yes: Surface,
    no: Surface,
) -> Result<Surface, NoMemory>
    ensures { IfOk result (λ s. written s ≡ plain.choose (tree cond) (written yes) (written no)) }
{
    let yes = Box::new(alloc, yes)?;
    let no = Some(Box::new(alloc, no)?);
    Ok(Surface::If { cond, yes, no })
}

#[tactic(auto, using(quartz_tree::proofs::SurfaceLemmas::written_loop))]
pub fn repeat(alloc: Global, body: Surface, place: Place) -> Result<Surface, NoMemory>
    ensures { IfOk result (λ s. written s ≡ plain.loop (written body) place) }
{
    let body = Box::new(alloc, body)?;
    Ok(Surface::Loop { body, place })
}

#[tactic(auto, using(quartz_tree::proofs::SurfaceLemmas::written_always))]
pub fn always(alloc: Global, body: Surface, place: Place) -> Result<Surface, NoMemory>
    ensures { IfOk result (λ s. written s ≡ plain.always (written body) place) }
{
    let body = Box::new(alloc, body)?;
    Ok(Surface::Always { body, place })
}

#[tactic(auto, using(quartz_tree::proofs::SurfaceLemmas::written_while))]
pub fn repeat_while(
    alloc: Global,
    cond: Expr<Name>,
    body: Surface,
    place: Place,
) -> Result<Surface, NoMemory>
    ensures { IfOk result (λ s. written s ≡ plain.while (tree cond) (written body) place) }
{
    let body = Box::new(alloc, body)?;
    Ok(Surface::While { cond, body, place })
}

#[tactic(auto, using(quartz_tree::proofs::SurfaceLemmas::written_do))]
pub fn do_while(
    alloc: Global,
    body: Surface,
    cond: Expr<Name>,
    place: Place,
) -> Result<Surface, NoMemory>
    ensures { IfOk result (λ s. written s ≡ plain.do_while (written body) (tree cond) place) }
{
    let body = Box::new(alloc, body)?;
    Ok(Surface::Do { body, cond, place })
}

/// Whether a guarded statement is an `abort` and not a `suspend`, and is weak and immediate.
#[derive(Clone, Copy)]
pub struct Mode {
    pub abort: bool,
    pub weak: bool,
    pub immediate: bool,
}

#[tactic(auto, using(quartz_tree::proofs::SurfaceLemmas::written_guard))]
pub fn guard(
    alloc: Global,
    mode: Mode,
    body: Surface,
    cond: Expr<Name>,
) -> Result<Surface, NoMemory>
    ensures { IfOk result (λ s.
        written s ≡ plain.guard mode.abort mode.weak mode.immediate (written body) (tree cond)) }
{
    let body = Box::new(alloc, body)?;
    Ok(Surface::Guard {
        abort: mode.abort,
        weak: mode.weak,
        immediate: mode.immediate,
        body,
        cond,
    })
}

#[tactic(auto, using(quartz_tree::proofs::SurfaceLemmas::written_call))]
pub fn call(callee: Name, args: Vec<Arg>, place: Place) -> Surface
    ensures { written result ≡ plain.call callee args.items place }
{
    Surface::Call {
        module: callee,
        args,
        place,
    }
}
