//! What converted traces say. The function does nothing, and its contract states the law.

ghost use Rattle.converted_laws.specs.Laws.{ConvertedTextsRunTheSame, ConvertedTextsSayTheSame};

/// A trace of an accepted module that was converted to its end has the same steps in its new form,
/// in either format, so the module has the same runs over both, in at most any number of steps.
pub fn converted_texts_say_the_same()
    ensures same { ConvertedTextsSayTheSame }
    ensures runs { ConvertedTextsRunTheSame }
{}
