//! The derived statements, put in terms of the others.

ghost use Rattle.std.specs.Prelude.{◌≡◌, IfOk, map};
ghost use Rattle.quartz_tree.specs.Expand.{await_of, expanded, forever, negated, then_pause, while_of};
ghost use Rattle.quartz_tree.specs.Surfaces.{choose, choose_one, do_while, goal_of, write, written};
ghost use Rattle.quartz_tree.specs.Tree.{tree};

use crate::copy::{Copied, copied_items};
use crate::expr::{Expr, Unary};
use crate::memory::NoMemory;
use crate::name::Name;
use crate::place::Place;
use crate::surface::{Surface, Target};
use std::alloc::Global;

// `!cond`, at the place of `cond`.
fn negate(alloc: Global, cond: &Expr<Name>) -> Result<Expr<Name>, NoMemory>
    ensures { IfOk result (λ e. tree e ≡ negated (tree cond.now)) }
{
    Ok(Expr::One {
        op: Unary::Not,
        part: Box::new(alloc, cond.copied(alloc)?)?,
        place: cond.place(),
    })
}

// `if(cond) yes`
#[tactic(auto, using(crate::proofs::SurfaceLemmas::written_if_none))]
fn only_if(alloc: Global, cond: Expr<Name>, yes: Surface) -> Result<Surface, NoMemory>
    ensures { IfOk result (λ s. written s ≡ choose_one (tree cond) (written yes)) }
{
    Ok(Surface::If {
        cond,
        yes: Box::new(alloc, yes)?,
        no: None,
    })
}

// `if(cond) yes else no`
#[tactic(auto, using(crate::proofs::SurfaceLemmas::written_if_some))]
fn if_else(alloc: Global, cond: Expr<Name>, yes: Surface, no: Surface) -> Result<Surface, NoMemory>
    ensures { IfOk result (λ s. written s ≡ choose (tree cond) (written yes) (written no)) }
{
    Ok(Surface::If {
        cond,
        yes: Box::new(alloc, yes)?,
        no: Some(Box::new(alloc, no)?),
    })
}

// `do body while(cond);`
fn repeat(alloc: Global, body: Surface, cond: Expr<Name>, place: Place) -> Result<Surface, NoMemory>
    ensures { IfOk result (λ s. written s ≡ do_while (written body) (tree cond) place) }
{
    Ok(Surface::Do {
        body: Box::new(alloc, body)?,
        cond,
        place,
    })
}

// `do body while(true);`
fn forever(alloc: Global, body: Surface, place: Place) -> Result<Surface, NoMemory>
    ensures { IfOk result (λ s. written s ≡ forever (written body) place) }
{
    repeat(alloc, body, Expr::Truth { value: true, place }, place)
}

// `if(cond) do body while(cond);`
fn while_loop(
    alloc: Global,
    cond: &Expr<Name>,
    body: Surface,
    place: Place,
) -> Result<Surface, NoMemory>
    ensures { IfOk result (λ s. written s ≡ while_of (tree cond.now) (written body) place) }
{
    let again = repeat(alloc, body, cond.copied(alloc)?, place)?;
    only_if(alloc, cond.copied(alloc)?, again)
}

// `await(cond);`
fn wait(
    alloc: Global,
    immediate: bool,
    cond: &Expr<Name>,
    place: Place,
) -> Result<Surface, NoMemory>
    ensures { IfOk result (λ s. written s ≡ await_of immediate (tree cond.now) place) }
{
    let absent = negate(alloc, cond)?;
    if immediate {
        while_loop(alloc, &absent, Surface::Pause, place)
    } else {
        repeat(alloc, Surface::Pause, absent, place)
    }
}

// `{ body pause; }`
fn then_pause(alloc: Global, body: Surface) -> Result<Surface, NoMemory>
    ensures { IfOk result (λ s. written s ≡ then_pause (written body)) }
{
    let mut stmts = Vec::new(alloc);
    stmts.push(body)?;
    stmts.push(Surface::Pause)?;
    let mut branches = Vec::new(alloc);
    branches.push(stmts)?;
    Ok(Surface::Block {
        decls: Vec::new(alloc),
        branches,
    })
}

// `target = value`
fn assignment(
    alloc: Global,
    delayed: bool,
    target: &Target,
    value: Expr<Name>,
    place: Place,
) -> Result<Surface, NoMemory>
    ensures { IfOk result (λ s. written s ≡ write delayed (goal_of target.now) (tree value) place) }
{
    Ok(Surface::Write {
        delayed,
        target: target.copied(alloc)?,
        value,
        place,
    })
}

/// The statement with its derived forms replaced by kernel forms. Calls are kept.
#[cycle(expand)]
pub fn expand(alloc: Global, body: &Surface) -> Result<Surface, NoMemory>
    ensures { IfOk result (λ s. written s ≡ expanded (written body.now)) }
{
    match body {
        Surface::Empty => Ok(Surface::Empty),
        Surface::Pause => Ok(Surface::Pause),
        Surface::Halt { place } => forever(alloc, Surface::Pause, *place),
        Surface::Await {
            immediate,
            cond,
            place,
        } => wait(alloc, *immediate, cond, *place),
        Surface::Emit {
            delayed,
            target,
            place,
        } => assignment(
            alloc,
            *delayed,
            target,
            Expr::Truth {
                value: true,
                place: *place,
            },
            *place,
        ),
        Surface::Write {
            delayed,
            target,
            value,
            place,
        } => assignment(alloc, *delayed, target, value.copied(alloc)?, *place),
        Surface::Block { decls, branches } => {
            let mut all = Vec::new(alloc);
            for stmts in branches {
                all.push(expand_branch(alloc, stmts)?)?;
            }
            Ok(Surface::Block {
                decls: copied_items(alloc, decls)?,
                branches: all,
            })
        }
        Surface::If { cond, yes, no } => match no {
            None => only_if(alloc, cond.copied(alloc)?, expand(alloc, yes)?),
            Some(no) => if_else(
                alloc,
                cond.copied(alloc)?,
                expand(alloc, yes)?,
                expand(alloc, no)?,
            ),
        },
        Surface::Loop { body, place } => forever(alloc, expand(alloc, body)?, *place),
        Surface::Always { body, place } => {
            forever(alloc, then_pause(alloc, expand(alloc, body)?)?, *place)
        }
        Surface::While { cond, body, place } => {
            while_loop(alloc, cond, expand(alloc, body)?, *place)
        }
        Surface::Do { body, cond, place } => {
            repeat(alloc, expand(alloc, body)?, cond.copied(alloc)?, *place)
        }
        Surface::Guard {
            abort,
            weak,
            immediate,
            body,
            cond,
        } => Ok(Surface::Guard {
            abort: *abort,
            weak: *weak,
            immediate: *immediate,
            body: Box::new(alloc, expand(alloc, body)?)?,
            cond: cond.copied(alloc)?,
        }),
        Surface::Call {
            module,
            args,
            place,
        } => Ok(Surface::Call {
            module: module.copied(alloc)?,
            args: copied_items(alloc, args)?,
            place: *place,
        }),
    }
}

#[cycle(expand)]
fn expand_branch(alloc: Global, stmts: &[Surface]) -> Result<Vec<Surface>, NoMemory>
    ensures { IfOk result (λ v. map written v.items ≡ map (λ s. expanded (written s)) stmts.now) }
{
    let mut all = Vec::new(alloc);
    for stmt in stmts {
        all.push(expand(alloc, stmt)?)?;
    }
    Ok(all)
}
