//! The scalar types of the inputs or outputs.

ghost use Rattle.std.specs.Prelude.{◌≡◌, ◌++◌, true, IfOk, OnOk, All};
ghost use Rattle.quartz_expr.specs.Intervals.{is_sound_base, is_sound_type};
ghost use Rattle.quartz_expr.specs.Typed.{have_sound_types};
ghost use Rattle.trace_io.specs.Inputs.{same_flow as has_flow, count_in, scalars, types_with};

use quartz_tree::{Base, Flow, NoMemory, Var};
use std::alloc::Global;

/// Whether two flows are the same.
pub fn same_flow(left: Flow, right: Flow) -> bool
    ensures { result ≡ has_flow left right }
{
    matches!(
        (left, right),
        (Flow::Input, Flow::Input) | (Flow::Output, Flow::Output) | (Flow::Inner, Flow::Inner)
    )
}

/// How many elements a variable has.
pub fn count_of(var: &Var) -> usize
    requires { is_sound_type var.now.decl.ty ≡ true }
    ensures { result ≡ count_in var.now }
{
    match var.decl.ty.len {
        Some(count) => count as usize,
        None => 1,
    }
}

// Adds the scalar type of each element of a variable.
fn push_scalars(types: &mut Vec<Base>, var: &Var) -> Result<(), NoMemory>
    requires { is_sound_type var.now.decl.ty ≡ true }
    ensures { OnOk result (types.new.items ≡ types.old.items ++ scalars var.now) }
{
    for _ in 0..count_of(var) {
        types.push(var.decl.ty.base)?;
    }
    Ok(())
}

/// The scalar types of the elements of the variables with that flow, in declared order.
pub fn types_of(alloc: Global, vars: &[Var], flow: Flow) -> Result<Vec<Base>, NoMemory>
    requires { have_sound_types vars.now ≡ true }
    ensures { IfOk result (λ types. types.items ≡ types_with flow vars.now) }
{
    let mut types = Vec::new(alloc);
    for var in vars {
        if same_flow(flow, var.decl.flow) {
            push_scalars(&mut types, var)?;
        }
    }
    Ok(types)
}
