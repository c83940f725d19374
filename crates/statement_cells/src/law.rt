//! The laws of the cells of statements. The functions do nothing, and their contracts state the
//! laws.

ghost use Rattle.statement_cells.specs.Earlier.{CompiledNamesBefore, DepthNamesBefore, SurfaceNamesBefore};
ghost use Rattle.statement_cells.specs.Meaning.{InitialRegistersStand, SolutionIsMacroStep};
ghost use Rattle.statement_cells.specs.Walk.{GoesOn, Starts};

/// What the cells of a statement say is a reaction of the term for which labels and registers
/// stand: when the statement starts, and when it goes on from its labels. This holds under every
/// assignment that meets the equations of all cells but perhaps those of value cells, if value
/// cells lie in the ranges of their variables, and those of copies that aren't active meet their
/// equations or have what they have where nothing is written. That is then what their equations
/// say.
pub fn open_walk()
    ensures starts { Starts }
    ensures goes_on { GoesOn }
{}

/// Each cell names only cells before it, but for value cells, which name cells that are there. So
/// from values of value cells all other cells are computed in the order of their numbers. This
/// holds of what the surface and the depth of a statement make, and of the cells of a whole module,
/// in which registers take only cells that are there.
pub fn cells_name_earlier_cells()
    ensures surface { SurfaceNamesBefore }
    ensures depth { DepthNamesBefore }
    ensures whole { CompiledNamesBefore }
{}

/// The initial registers of a module stand for its initial state. Where registers stand for a
/// state, every assignment that meets the equations of all cells, with inputs and value cells in
/// the ranges of their variables, is a macro step of that state: it has the values of the outputs'
/// cells and the faults of the monitors that hold, and the next registers stand for the next state.
pub fn solutions_are_macro_steps()
    ensures start { InitialRegistersStand }
    ensures step { SolutionIsMacroStep }
{}
