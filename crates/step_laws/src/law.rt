//! The laws. The functions do nothing, and their contracts state them.

ghost use Rattle.step_laws.specs.Exact.{TreesAreExact};
ghost use Rattle.step_laws.specs.Laws.{InitialRegistersAreBits, StepsKeepBits, TypedModulesHaveConditions};
ghost use Rattle.step_laws.specs.One.{MacroStepIsOne};

/// On given inputs a state for which registers stand has one macro step: its outputs, its next
/// state and its faults.
pub fn macro_steps_are_one()
    ensures { MacroStepIsOne }
{}

/// The conditions of a module that breaks no rule are truth values.
pub fn typed_conditions_are_truth_values()
    ensures { TypedModulesHaveConditions }
{}

/// The start flag, the labels and the flags of outputs and of scopes are 0 or 1 at the start.
pub fn registers_begin_as_bits()
    ensures { InitialRegistersAreBits }
{}

/// Where registers stand for a state and are 0 or 1 at these places, so are the guards of all
/// actions in the macro step of that state, and the registers of the next state again.
pub fn steps_keep_bits()
    ensures { StepsKeepBits }
{}

/// In each macro step from registers that are 0 or 1 at these places, no number that is made in the
/// tree of a cell wraps around: each is already one of the machine's numbers.
pub fn trees_are_exact()
    ensures { TreesAreExact }
{}
