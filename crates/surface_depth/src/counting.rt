//! How many registers a variable has.

ghost use Rattle.std.specs.Prelude.{◌≡◌, ◌+◌, ◌*◌, ◌<◌, ◌≤◌, true, IfOk};
ghost use Rattle.quartz_expr.specs.Typed.{have_sound_types};
ghost use Rattle.absence_reaction.specs.Closing.{registers_each as plain_registers_each};
ghost use Rattle.statement_cells.specs.Labels.{scope_registers, shape_in};
ghost use Rattle.statement_cells.specs.Whole.{variable_registers};

use expression_cells::count_elements;
use quartz_tree::{NoMemory, Var};

/// The sum, where it is a number of a label or a register.
pub(crate) fn plus(a: u32, b: u32) -> Result<u32, NoMemory>
    ensures { IfOk result (λ n. n ≡ a + b) }
{
    match a.checked_add(b) {
        Some(sum) => Ok(sum),
        None => Err(NoMemory),
    }
}

// How many registers each element of a variable has.
fn registers_each(vars: &[Var], var: u32) -> u32
    ensures count { result ≡ plain_registers_each (shape_in vars.now var) }
    ensures few { result < 4 }
{
    match vars.get(var as usize) {
        Some(var) => {
            let delayed = var.delayed as u32;
            var.decl.storage.is_memorized() as u32 + (delayed + delayed)
        }
        None => 1,
    }
}

/// How many registers a variable has.
pub(crate) fn count_registers(vars: &[Var], var: u32) -> u32
    requires { have_sound_types vars.now ≡ true }
    ensures count { result ≡ variable_registers vars.now var }
    ensures small { result ≤ 192 }
{
    count_elements(vars, var) * registers_each(vars, var)
}

/// How many registers the variable of a scope has whose body has so many labels.
pub(crate) fn count_in_scope(vars: &[Var], labels: u32, var: u32) -> u32
    requires { have_sound_types vars.now ≡ true }
    ensures count { result ≡ scope_registers vars.now labels var }
    ensures small { result ≤ 192 }
{
    if labels == 0 {
        0
    } else {
        count_registers(vars, var)
    }
}
