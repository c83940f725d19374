//! What actions write to an element: their guards, their values, and where they disagree.

ghost use Rattle.std.specs.Prelude.{◌≡◌, [], ◌++◌, map, option_map, pos, IfOk, OnOk};
ghost use Rattle.aif_cells.specs.Tree.{tree, two, value};
ghost use Rattle.absence_reaction.specs.Closing.{arm_before, arms_for as plain_arms_for, disagrees, guard_for as plain_guard_for};

use aif_cells::{Action, Ref, Tree, TreeTwo};
use quartz_tree::NoMemory;
use std::alloc::Global;

fn of(alloc: Global, reference: Ref) -> Result<Box<Tree>, NoMemory>
    ensures { IfOk result (λ b. tree b.value ≡ value reference) }
{
    Ok(Box::new(alloc, Tree::Value(reference))?)
}

// A guard and a test of the index.
fn guard_with_index(alloc: Global, element: u32, guard: Ref, index: Ref) -> Result<Tree, NoMemory>
    ensures { IfOk result
        (λ t. tree t ≡ two TreeTwo.And (value guard)
        (two TreeTwo.Eq (value index) (value (Ref.Lit (pos element))))) }
{
    let test = Tree::Two(
        TreeTwo::Eq,
        of(alloc, index)?,
        of(alloc, Ref::Lit(element as i64))?,
    );
    Ok(Tree::Two(TreeTwo::And, of(alloc, guard)?, Box::new(alloc, test)?))
}

// The guard of a write to the element with that literal index, if it is this one.
fn guard_at(element: u32, guard: Ref, at: i64) -> Option<Tree>
    ensures { option_map tree result ≡ plain_guard_for element (value guard) (Some (Ref.Lit at)) }
{
    if at == element as i64 {
        Some(Tree::Value(guard))
    } else {
        None
    }
}

// The guard of an action for an element, and nothing where it writes another element.
fn guard_for(alloc: Global, element: u32, action: &Action) -> Result<Option<Tree>, NoMemory>
    ensures { IfOk result
        (λ g. option_map tree g
        ≡ plain_guard_for element (value action.now.guard) action.now.index) }
{
    let guard = action.guard;
    match action.index {
        None => Ok(Some(Tree::Value(guard))),
        Some(Ref::Lit(at)) => Ok(guard_at(element, guard, at)),
        Some(Ref::Input(at)) => Ok(Some(guard_with_index(alloc, element, guard, Ref::Input(at))?)),
        Some(Ref::Reg(at)) => Ok(Some(guard_with_index(alloc, element, guard, Ref::Reg(at))?)),
        Some(Ref::Cell(at)) => Ok(Some(guard_with_index(alloc, element, guard, Ref::Cell(at))?)),
    }
}

// A guard and a value behind the others, if there is a guard.
fn push_arm(arms: &mut Vec<(Tree, Tree)>, guard: Option<Tree>, written: Ref) -> Result<(), NoMemory>
    ensures { OnOk result
        (map (λ a. (tree a.0, tree a.1)) arms.new.items
        ≡ map (λ a. (tree a.0, tree a.1)) arms.old.items
        ++ arm_before (option_map tree guard) written []) }
{
    match guard {
        None => Ok(()),
        Some(guard) => {
            arms.push((guard, Tree::Value(written)))?;
            Ok(())
        }
    }
}

/// The guards and values that the actions write to an element, in order.
pub(crate) fn arms_for(
    alloc: Global,
    element: u32,
    actions: &[Action],
) -> Result<Vec<(Tree, Tree)>, NoMemory>
    ensures { IfOk result
        (λ v. map (λ a. (tree a.0, tree a.1)) v.items ≡ plain_arms_for element actions.now) }
{
    let mut arms = Vec::new(alloc);
    for action in actions {
        let guard = guard_for(alloc, element, action)?;
        push_arm(&mut arms, guard, action.value)?;
    }
    Ok(arms)
}

// A guard behind the others, if there is one.
fn push_guard(guards: &mut Vec<Tree>, guard: Option<Tree>, written: Ref) -> Result<(), NoMemory>
    ensures { OnOk result
        (map tree guards.new.items
        ≡ map tree guards.old.items
        ++ map (λ a. a.0) (arm_before (option_map tree guard) written [])) }
{
    match guard {
        None => Ok(()),
        Some(guard) => {
            guards.push(guard)?;
            Ok(())
        }
    }
}

/// The guards under which the actions write to an element, in order.
pub(crate) fn guards_for(
    alloc: Global,
    element: u32,
    actions: &[Action],
) -> Result<Vec<Tree>, NoMemory>
    ensures { IfOk result
        (λ v. map tree v.items ≡ map (λ a. a.0) (plain_arms_for element actions.now)) }
{
    let mut guards = Vec::new(alloc);
    for action in actions {
        let guard = guard_for(alloc, element, action)?;
        push_guard(&mut guards, guard, action.value)?;
    }
    Ok(guards)
}

// The guard holds, and another value is written.
fn disagreement(alloc: Global, guard: Tree, written: Ref, other: Ref) -> Result<Tree, NoMemory>
    ensures { IfOk result (λ t. tree t ≡ disagrees other (tree guard, value written)) }
{
    let differs = Tree::Two(TreeTwo::Ne, of(alloc, written)?, of(alloc, other)?);
    Ok(Tree::Two(
        TreeTwo::And,
        Box::new(alloc, guard)?,
        Box::new(alloc, differs)?,
    ))
}

// A disagreement behind the others, if there is a guard.
fn push_disagreement(
    alloc: Global,
    items: &mut Vec<Tree>,
    guard: Option<Tree>,
    written: Ref,
    other: Ref,
) -> Result<(), NoMemory>
    ensures { OnOk result
        (map tree items.new.items
        ≡ map tree items.old.items
        ++ map (disagrees other) (arm_before (option_map tree guard) written [])) }
{
    match guard {
        None => Ok(()),
        Some(guard) => {
            items.push(disagreement(alloc, guard, written, other)?)?;
            Ok(())
        }
    }
}

/// For each of the actions that write to an element, in order: it acts, and writes another value.
pub(crate) fn disagreements_for(
    alloc: Global,
    element: u32,
    actions: &[Action],
    other: Ref,
) -> Result<Vec<Tree>, NoMemory>
    ensures { IfOk result
        (λ v. map tree v.items ≡ map (disagrees other) (plain_arms_for element actions.now)) }
{
    let mut items = Vec::new(alloc);
    for action in actions {
        let guard = guard_for(alloc, element, action)?;
        push_disagreement(alloc, &mut items, guard, action.value, other)?;
    }
    Ok(items)
}
