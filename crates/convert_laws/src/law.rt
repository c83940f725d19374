//! What a converted trace says. Each function does nothing, and its contract states the law.

ghost use Rattle.convert_laws.specs.Laws.{NewTracesRunTheSame, NewTracesSayTheSame, PlainLinesAreAsOutputs};

/// A trace that was converted to its end has the same steps in its new form, in either format.
pub fn new_traces_say_the_same()
    ensures same { NewTracesSayTheSame }
    ensures plain { PlainLinesAreAsOutputs }
{}

/// So each module has the same runs over both, in at most any number of steps.
pub fn new_traces_run_the_same()
    ensures { NewTracesRunTheSame }
{}
