//! The laws. The functions do nothing, and their contracts state them.

ghost use Rattle.cell_verdicts.specs.Laws.{CyclesAreNamed, CyclesBeginAtValueCells, LoosePairsAreListed};

/// Cells that name cells alone have no cycle, or one of theirs is named, with its place.
/// The one of a module's cells begins at a value cell of an output or of a local.
pub fn cycles_are_named()
    ensures named { CyclesAreNamed }
    ensures first { CyclesBeginAtValueCells }
{}

/// Over cells in an order the loose pairs of actions are the elements of a list.
pub fn loose_pairs_are_listed()
    ensures { LoosePairsAreListed }
{}
