//! The laws. The functions do nothing, and their contracts state them.

ghost use Rattle.walk_laws.specs.Enough.{LongListsAreEnough, ShortListsAreCured};

/// A list with a value for each element of the scopes in a term is never too short for
/// `react_with`, whatever its values are. So each list that is too short is the front of one that
/// isn't.
pub fn short_lists_are_cured()
    ensures long { LongListsAreEnough }
    ensures cured { ShortListsAreCured }
{}
