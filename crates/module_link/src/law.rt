//! What linked modules mean. The function does nothing, and its contract states the law.

ghost use Rattle.module_link.specs.Meaning.{LinkedMeansTheSame};

/// Where modules are linked to one that keeps the rule of names, its runs are those of the main module among the modules
/// that it calls: the same inputs, outputs, end, fault and place.
pub fn linked_modules_mean_the_same()
    ensures { LinkedMeansTheSame }
{}
