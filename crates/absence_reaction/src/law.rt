//! What the cells of a closed copy mean, and which cells they name. The functions do nothing, and
//! their contracts state the laws.

ghost use Rattle.absence_reaction.specs.Earlier.{ClosingNamesEarlier};
ghost use Rattle.absence_reaction.specs.Meaning.{ClosingGoesBack, ClosingKeeps, ClosingResolves, FlagsAreBits};

/// Closing is resolving: under every assignment that meets the equations of the cells that closing
/// makes, the trees of the value cells have the resolved values, from what the copy goes on from
/// and the actions whose guards hold, and what is pending is what resolving keeps; where the value
/// cells have these values too, the monitors raise just the conflicts. All other cells stay as they
/// were.
pub fn closing_is_resolving()
    ensures resolves { ClosingResolves }
    ensures bits { FlagsAreBits }
    ensures keeps { ClosingKeeps }
    ensures back { ClosingGoesBack }
{}

/// The cells that closing adds name only cells before them, and a value cell names only cells that
/// were there when its copy was closed. So in cells that are made in this way only value cells name
/// later ones.
pub fn closing_names_earlier_cells()
    ensures { ClosingNamesEarlier }
{}
