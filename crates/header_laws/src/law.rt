//! The inputs of a text can be named. The function does nothing, and its contract states the law.

ghost use Rattle.header_laws.specs.Laws.{ParametersCanBeNamed};

/// The inputs of the first module of a text can be named in the header of a trace, where its
/// parameters differ in their names.
pub fn parameters_can_be_named()
    ensures { ParametersCanBeNamed }
{}
