//! The laws of macro steps. The functions do nothing, and their contracts state the laws.

ghost use Rattle.macro_steps.specs.Laws.{AcyclicHasOrder, Coherence, Completeness, InitialRegistersLie, Marks, OrderedIsAcyclic, SolutionIsOne, Soundness, ValuesLie};
ghost use Rattle.macro_steps.specs.Runs.{ComputedIsRun, OrderForgets, OrderSolves, RunIsComputed};

/// Cells have an order, in which each stands behind those on which it depends, exactly where they
/// have no cycle. Then they have one solution for each inputs and registers.
pub fn ordered_cells_are_acyclic()
    ensures order { AcyclicHasOrder }
    ensures acyclic { OrderedIsAcyclic }
    ensures solution { SolutionIsOne }
{}

/// Without a cycle the value cells of a solution lie in the ranges of their variables. So a
/// solution is a macro step of the state for which the registers stand, and the next registers
/// stand for the next state. They lie in their ranges again, as the initial registers do.
pub fn solutions_are_steps()
    ensures values { ValuesLie }
    ensures start { InitialRegistersLie }
    ensures step { Soundness }
{}

/// Each macro step of the state for which the registers stand is the one that the solution is: with
/// the outputs, the faults and the next state of the cells, and with the active copies in place of
/// the scopes that are met. It has a fault exactly where no values of the outputs are coherent.
pub fn steps_are_solutions()
    ensures complete { Completeness }
    ensures coherent { Coherence }
    ensures marks { Marks }
{}

/// Computing cells along an order solves their equations, whatever values stood in their places
/// before. The solutions computed from the initial registers on, one after another, up to the first
/// with a fault, are the run of the semantics on these inputs, and there is no other.
pub fn runs_are_computed()
    ensures solves { OrderSolves }
    ensures forgets { OrderForgets }
    ensures is_run { ComputedIsRun }
    ensures only_run { RunIsComputed }
{}
