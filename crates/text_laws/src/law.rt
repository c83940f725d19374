//! The laws. The functions do nothing, and their contracts state them.

ghost use Rattle.text_laws.specs.Conflicts.{StoriesEndFlagged, StrictStepsHaveNoConflict, StrictStoriesHaveNoConflict, UntoldHasNoConflict};
ghost use Rattle.text_laws.specs.Stories.{StoriesAreOne, StoriesExist};
ghost use Rattle.text_laws.specs.Verdicts.{CellsHaveOneText, TextsHaveAVerdict, TextsHaveOneVerdict, WellTypedModulesAreSound};

/// However far it is judged, a text is refused by at most one rule at one place, or accepted as at
/// most one module, and never both. Whatever a module is compiled to has the same text.
pub fn texts_have_one_verdict()
    ensures verdict { TextsHaveOneVerdict }
    ensures cells { CellsHaveOneText }
{}

/// However far it is judged, every text is accepted as some module, or refused by some rule at some
/// place.
pub fn texts_have_a_verdict()
    ensures { TextsHaveAVerdict }
{}

/// A module that breaks none of the rules S1 to S7 meets what its compilation needs.
pub fn well_typed_modules_are_sound()
    ensures { WellTypedModulesAreSound }
{}

/// Over one trace an accepted text has one story at most: the same lines, and the same end. So the
/// lines of a run are the only ones that the semantics gives.
pub fn stories_are_one()
    ensures { StoriesAreOne }
{}

/// Over each trace an accepted text has a story, whatever the greatest number of steps is.
pub fn stories_exist()
    ensures { StoriesExist }
{}

/// No step of any run has a conflict at a place where no variable is declared that is told to be
/// loose, and a run over a trace that ends with a conflict ends at a place where a variable is
/// declared that a loose pair of writes writes. A text that is accepted strictly has no conflict in
/// any step of any run, and none of its stories ends with one.
pub fn conflicts_are_of_loose_pairs()
    ensures place { UntoldHasNoConflict }
    ensures stories { StoriesEndFlagged }
    ensures strict_steps { StrictStepsHaveNoConflict }
    ensures strict_stories { StrictStoriesHaveNoConflict }
{}
