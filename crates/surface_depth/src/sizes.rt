//! How many inputs, labels and registers a module has.

ghost use Rattle.std.specs.Prelude.{◌≡◌, ◌+◌, true, IfOk};
ghost use Rattle.quartz_expr.specs.Typed.{have_sound_types};
ghost use Rattle.quartz_expr.specs.Terms.{term_of};
ghost use Rattle.quartz_tree.specs.Kernel.{kernel};
ghost use Rattle.aif_cells.specs.Aif.{input_count, input_elements};
ghost use Rattle.statement_cells.specs.Labels.{labels, registers};
ghost use Rattle.statement_cells.specs.Whole.{output_registers};

use crate::counting::{count_registers, plus};
use aif_cells::count_elements;
use quartz_tree::{Flow, NoMemory, Stmt, Var};
use statement_builder::count;

// How many elements of inputs a variable adds.
fn count_input_elements(var: &Var) -> Result<u32, NoMemory>
    ensures { IfOk result (λ n. n ≡ input_elements var.now) }
{
    if var.decl.flow != Flow::Input {
        return Ok(0);
    }
    let Ok(count) = u32::try_from(count_elements(var)) else {
        return Err(NoMemory);
    };
    Ok(count)
}

fn count_inputs(vars: &[Var]) -> Result<u32, NoMemory>
    ensures { IfOk result (λ n. n ≡ input_count vars.now) }
{
    let mut total = 0;
    for var in vars {
        total = plus(total, count_input_elements(var)?)?;
    }
    Ok(total)
}

fn count_output_registers(vars: &[Var], outputs: &[u32]) -> Result<u32, NoMemory>
    requires { have_sound_types vars.now ≡ true }
    ensures { IfOk result (λ n. n ≡ output_registers vars.now outputs.now) }
{
    let mut total = 0;
    for output in outputs {
        total = plus(total, count_registers(vars, *output))?;
    }
    Ok(total)
}

/// How many elements of inputs, labels, registers of outputs and registers of scopes a module has.
#[derive(Clone, Copy, Debug)]
pub(crate) struct Sizes {
    pub inputs: u32,
    pub labels: u32,
    pub outputs: u32,
    pub scopes: u32,
}

/// Counts what has numbers in a module. Where there are 2^32 or more of a kind, it answers want of
/// memory.
pub(crate) fn measure(vars: &[Var], body: &Stmt, outputs: &[u32]) -> Result<Sizes, NoMemory>
    requires { have_sound_types vars.now ≡ true }
    ensures inputs { IfOk result (λ s. s.inputs ≡ input_count vars.now) }
    ensures labels { IfOk result (λ s. s.labels ≡ labels (term_of (kernel body.now))) }
    ensures outputs { IfOk result (λ s. s.outputs ≡ output_registers vars.now outputs.now) }
    ensures scopes { IfOk result (λ s. s.scopes ≡ registers vars.now (term_of (kernel body.now))) }
{
    let counts = count(body, vars)?;
    Ok(Sizes {
        inputs: count_inputs(vars)?,
        labels: counts.labels,
        outputs: count_output_registers(vars, outputs)?,
        scopes: counts.registers,
    })
}

impl Sizes {
    /// How many registers there are: the start flag, the labels, and those of outputs and of
    /// scopes.
    pub(crate) fn registers(self) -> u64
        ensures { result ≡ 1 + (self.labels + (self.outputs + self.scopes)) }
    {
        1 + self.labels as u64 + self.outputs as u64 + self.scopes as u64
    }
}
