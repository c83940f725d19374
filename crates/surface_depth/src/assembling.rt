//! The module put together from what was built.

ghost use Rattle.std.specs.Prelude.{◌≡◌, [], map, IfOk};
ghost use Rattle.quartz_tree.specs.Kernel.{kernel};
ghost use Rattle.quartz_expr.specs.Terms.{term_of};
ghost use Rattle.statement_cells.specs.Whole.{output_cells, paths};
ghost use Rattle.surface_depth.specs.Begins.{output_copy};
ghost use Rattle.surface_depth.specs.Ways.{steps_of};

use crate::beginning::OutputCopy;
use crate::paths::push_paths;
use aif_cells::{Aif, Path, Register};
use quartz_tree::{Name, NoMemory, Stmt};
use sqlite_items::Items;
use statement_builder::Builder;
use std::alloc::Global;

/// The value cells of the outputs, in order.
pub(crate) fn output_cells(alloc: Global, outputs: &[OutputCopy]) -> Result<Items<u32>, NoMemory>
    ensures { IfOk result (λ cs. cs ≡ output_cells (map output_copy outputs.now)) }
{
    let mut cells = Items::new(alloc);
    for output in outputs {
        cells.append(Items::from_slice(alloc, output.cells.as_slice())?)?;
    }
    Ok(cells)
}

/// The paths of the body's labels, in order.
pub(crate) fn label_paths(alloc: Global, body: &Stmt) -> Result<Items<Path>, NoMemory>
    ensures { IfOk result (λ ps. map steps_of ps ≡ paths [] (term_of (kernel body.now))) }
{
    let mut front = Vec::new(alloc);
    let mut found = Items::new(alloc);
    push_paths(alloc, body, &mut front, &mut found)?;
    Ok(found)
}

/// The module with what was built.
pub(crate) fn assemble(
    builder: Builder,
    name: Name,
    inputs: u32,
    outputs: Items<u32>,
    paths: Items<Path>,
    registers: Items<Register>,
) -> Aif
    ensures { result ≡ record builder.aif {
      name = name;
      inputs = inputs;
      outputs = outputs;
      paths = paths;
      registers = registers;
    } }
{
    let mut aif = builder.aif;
    aif.name = name;
    aif.inputs = inputs;
    aif.outputs = outputs;
    aif.paths = paths;
    aif.registers = registers;
    aif
}
