//! The laws of linked modules. The functions do nothing, and their contracts state the laws.

ghost use Rattle.linked_trees.specs.Laws.{LinkedHasNoCall, LinkedHasSameRuns, UncalledIsItself};

/// A module whose calls are replaced by the called modules' blocks has the runs of the module among the modules that
/// it calls: the same inputs, outputs, end, fault and place.
pub fn linked_modules_have_the_same_runs()
    ensures { LinkedHasSameRuns }
{}

/// A module without calls is linked to itself, whatever the modules beside it.
pub fn modules_without_calls_are_linked_to_themselves()
    ensures { UncalledIsItself }
{}

/// No call is left in a linked module.
pub fn linked_modules_have_no_calls()
    ensures { LinkedHasNoCall }
{}
