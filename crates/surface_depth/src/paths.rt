//! The paths of labels: the way from the body to each.

ghost use Rattle.std.specs.Prelude.{◌≡◌, ◌++◌, [], ◌∷◌, length, map, take, IfOk, OnOk};
ghost use Rattle.quartz_tree.specs.Kernel.{kernel, kernels};
ghost use Rattle.quartz_expr.specs.Terms.{term_of, terms_of};
ghost use Rattle.quartz_names.specs.Unscoped.{IsNoDeeper};
ghost use Rattle.statement_cells.specs.Whole.{paths, paths_all};
ghost use Rattle.surface_depth.specs.Ways.{steps_of, wait_paths, within};

use aif_cells::Path;
use quartz_tree::{NoMemory, Stmt};
use sqlite_items::Items;
use std::alloc::Global;

/// A step on the way from the body to a label: whether the statement is a parallel, and which of
/// its parts it goes to.
type Step = (bool, u32);

// Goes through the scopes around a statement, one in another.
fn enter_scopes<'s>(stmt: &'s Stmt, front: &mut Vec<Step>) -> Result<&'s Stmt, NoMemory>
    ensures paths { IfOk result
        (λ s. paths front.new.items (term_of (kernel s.now))
        ≡ paths front.old.items (term_of (kernel stmt.now))) }
    ensures no_deeper { IfOk result (λ s. IsNoDeeper s.now stmt.now) }
    ensures front { OnOk result (take (length front.old.items) front.new.items ≡ front.old.items) }
{
    let mut inner = stmt;
    while let Stmt::Local { body, .. } = inner {
        front.push((false, 0))?;
        inner = body;
    }
    Ok(inner)
}

// A label's path behind the others.
fn push_path(alloc: Global, front: &[Step], found: &mut Items<Path>) -> Result<(), NoMemory>
    ensures { OnOk result (map steps_of found.new ≡ map steps_of found.old ++ front.now ∷ []) }
{
    let steps = Items::from_slice(alloc, front)?;
    found.push(Path { steps })?;
    Ok(())
}

/// The paths of a statement's labels behind the others, where this is the way to the statement.
#[cycle(paths)]
pub(crate) fn push_paths(
    alloc: Global,
    stmt: &Stmt,
    front: &mut Vec<Step>,
    found: &mut Items<Path>,
) -> Result<(), NoMemory>
    ensures front { OnOk result (front.new.items ≡ front.old.items) }
    ensures paths { OnOk result
        (map steps_of found.new
        ≡ map steps_of found.old ++ paths front.old.items (term_of (kernel stmt.now))) }
{
    let way = front.len();
    let inner = enter_scopes(stmt, front)?;
    push_inside(alloc, inner, front, found)?;
    front.truncate(way);
    Ok(())
}

// The paths of the labels of a statement without the scopes around it.
#[cycle(paths)]
fn push_inside(
    alloc: Global,
    stmt: &Stmt,
    front: &mut Vec<Step>,
    found: &mut Items<Path>,
) -> Result<(), NoMemory>
    ensures front { OnOk result (front.new.items ≡ front.old.items) }
    ensures paths { OnOk result
        (map steps_of found.new
        ≡ map steps_of found.old ++ paths front.old.items (term_of (kernel stmt.now))) }
{
    match stmt {
        Stmt::Nothing => Ok(()),
        Stmt::Pause => push_path(alloc, front.as_slice(), found),
        Stmt::Write { .. } => Ok(()),
        Stmt::Choose { yes, no, .. } => {
            push_part(alloc, (false, 0), yes, front, found)?;
            push_part(alloc, (false, 1), no, front, found)
        }
        Stmt::Seq(parts) => push_parts(alloc, false, parts, front, found),
        Stmt::Par(parts) => push_parts(alloc, true, parts, front, found),
        Stmt::Loop { body, .. } => push_part(alloc, (false, 0), body, front, found),
        Stmt::Guard {
            abort,
            immediate,
            body,
            ..
        } => {
            push_wait(alloc, *abort, *immediate, front, found)?;
            push_part(alloc, within(*abort), body, front, found)
        }
        Stmt::Local { body, .. } => push_part(alloc, (false, 0), body, front, found),
    }
}

// The step to the body of a guard.
fn within(abort: bool) -> Step
    ensures { result ≡ within abort }
{
    if abort { (false, 0) } else { (false, 1) }
}

// The path of the wait of an immediate suspension.
fn push_wait(
    alloc: Global,
    abort: bool,
    immediate: bool,
    front: &mut Vec<Step>,
    found: &mut Items<Path>,
) -> Result<(), NoMemory>
    ensures front { OnOk result (front.new.items ≡ front.old.items) }
    ensures paths { OnOk result
        (map steps_of found.new
        ≡ map steps_of found.old ++ wait_paths abort immediate front.old.items) }
{
    if abort || !immediate {
        return Ok(());
    }
    front.push((false, 0))?;
    push_path(alloc, front.as_slice(), found)?;
    front.pop();
    Ok(())
}

// The paths of the labels of a part, to which the step goes.
#[cycle(paths)]
fn push_part(
    alloc: Global,
    step: Step,
    part: &Stmt,
    front: &mut Vec<Step>,
    found: &mut Items<Path>,
) -> Result<(), NoMemory>
    ensures front { OnOk result (front.new.items ≡ front.old.items) }
    ensures paths { OnOk result
        (map steps_of found.new
        ≡ map steps_of found.old
        ++ paths (front.old.items ++ step ∷ []) (term_of (kernel part.now))) }
{
    front.push(step)?;
    push_paths(alloc, part, front, found)?;
    front.pop();
    Ok(())
}

#[cycle(paths)]
fn push_parts(
    alloc: Global,
    parallel: bool,
    parts: &[Stmt],
    front: &mut Vec<Step>,
    found: &mut Items<Path>,
) -> Result<(), NoMemory>
    ensures front { OnOk result (front.new.items ≡ front.old.items) }
    ensures paths { OnOk result
        (map steps_of found.new
        ≡ map steps_of found.old
        ++ paths_all front.old.items parallel 0 (terms_of (kernels (map kernel parts.now)))) }
{
    for (number, part) in parts.iter().enumerate() {
        let Ok(number) = u32::try_from(number) else {
            return Err(NoMemory);
        };
        push_part(alloc, (parallel, number), part, front, found)?;
    }
    Ok(())
}
