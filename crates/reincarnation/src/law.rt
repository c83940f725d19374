//! What registers carry, and what copies and carried stores leave as it was. The function does
//! nothing, and its contract states the laws.

ghost use Rattle.reincarnation.specs.Meaning.{CarriesOneStore, CarryingGoesBack, CarryingKeeps, CarryingNamesEarlier, DepthIsCarried, EnteredIsCarried, EnteringReserves};

/// The registers of a scope carry the store of one copy: under every assignment that meets the
/// equations of the cells that `carry` makes, each register of the scope's variable takes what the
/// first copy holds that was entered and is still active, and else what the depth copy holds. Cells
/// and registers of others stay as they were, and new cells name only cells that were there before.
pub fn carrying_keeps_one_store()
    ensures carries { CarriesOneStore }
    ensures depth { DepthIsCarried }
    ensures entered { EnteredIsCarried }
    ensures keeps { CarryingKeeps }
    ensures back { CarryingGoesBack }
    ensures names { CarryingNamesEarlier }
    ensures reserves { EnteringReserves }
{}
