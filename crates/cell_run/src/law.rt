//! What the cells of a module are for. The function does nothing, and its contract states the law.

ghost use Rattle.cell_run.specs.Machine.{CompiledCellsExecute};

/// The cells that a sound module is compiled to execute it, if they have an order: the first
/// registers stand for the initial state, and from registers that stand for a state every solution
/// of the cells is a macro step of it, whose outputs lie in their ranges and whose next registers
/// stand for the next state.
pub fn compiled_cells_execute()
    ensures { CompiledCellsExecute }
{}
