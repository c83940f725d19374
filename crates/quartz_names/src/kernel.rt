//! Statements over numbers, made of their parts.

ghost use Rattle.std.specs.Prelude.{◌≡◌, ◌-◌, ◌≤◌, IfOk, map};
ghost use Rattle.quartz_names.specs.Numbering.{around, joined};
ghost use Rattle.quartz_tree.specs.Kernel.{choose, guard, kernel, kernels, loop, nothing};
ghost use Rattle.quartz_tree.specs.Tree.{tree};

use quartz_tree::{Expr, NoMemory, Place, Stmt};
use std::alloc::Global;

// `if(cond) yes else no`
#[tactic(auto, using(crate::proofs::KernelLemmas::kernel_choose))]
pub(crate) fn choose(alloc: Global, cond: Expr<u32>, yes: Stmt, no: Stmt) -> Result<Stmt, NoMemory>
    ensures { IfOk result (λ s. kernel s ≡ choose (tree cond) (kernel yes) (kernel no)) }
{
    Ok(Stmt::Choose {
        cond,
        yes: Box::new(alloc, yes)?,
        no: Box::new(alloc, no)?,
    })
}

// `do body while(cond)`
#[tactic(auto, using(crate::proofs::KernelLemmas::kernel_loop))]
pub(crate) fn repeated(
    alloc: Global,
    body: Stmt,
    cond: Expr<u32>,
    place: Place,
) -> Result<Stmt, NoMemory>
    ensures { IfOk result (λ s. kernel s ≡ loop (kernel body) (tree cond) place) }
{
    Ok(Stmt::Loop {
        body: Box::new(alloc, body)?,
        cond,
        place,
    })
}

#[tactic(auto, using(crate::proofs::KernelLemmas::kernel_guard))]
pub(crate) fn guarded(
    alloc: Global,
    abort: bool,
    weak: bool,
    immediate: bool,
    body: Stmt,
    cond: Expr<u32>,
) -> Result<Stmt, NoMemory>
    ensures { IfOk result (λ s. kernel s ≡ guard abort weak immediate (kernel body) (tree cond)) }
{
    Ok(Stmt::Guard {
        abort,
        weak,
        immediate,
        body: Box::new(alloc, body)?,
        cond,
    })
}

/// A Local around the statement for each variable from `first` to before `end`, the first
/// outermost.
#[tactic(auto, using(crate::proofs::KernelLemmas::kernel_local))]
pub(crate) fn around(alloc: Global, first: u32, end: u32, body: Stmt) -> Result<Stmt, NoMemory>
    requires { first ≤ end }
    ensures { IfOk result (λ s. kernel s ≡ around first (end - first) (kernel body)) }
{
    let mut inner = body;
    for step in 0..end - first {
        inner = Stmt::Local {
            var: end - 1 - step,
            body: Box::new(alloc, inner)?,
        };
    }
    Ok(inner)
}

/// One branch alone, or several in parallel.
pub(crate) fn joined(mut branches: Vec<Stmt>) -> Stmt
    ensures { kernel result ≡ joined (kernels (map kernel branches.items)) }
{
    if branches.len() != 1 {
        return Stmt::Par(branches);
    }
    match branches.pop() {
        Some(branch) => branch,
        None => unreachable!(),
    }
}
