//! Laws of cells. Each function does nothing, and its contract states the law.

ghost use Rattle.aif_cells.specs.Solution.{BoundCellsAreMet, ExtensionKeeps, ExtensionsFollow, FreeingKeeps};

/// What meets the equations of all cells meets those of the cells that were there before, also
/// where more cells may be free.
pub fn extension_keeps_equations()
    ensures keeps { ExtensionKeeps }
    ensures follow { ExtensionsFollow }
    ensures freeing { FreeingKeeps }
    ensures bound { BoundCellsAreMet }
{}
