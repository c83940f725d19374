//! Laws of actors that push and pop on rings, each by a fixed list of moves for each step, and of a
//! pipeline of such actors. Each function does nothing, and its contract states the law.
#![tactic(auto)]

ghost use Rattle.pipe_laws.specs.Machine.{NeverStuck, StatesKept};
ghost use Rattle.pipe_laws.specs.Pipe.{ScriptsAreTied, PopsAreTied};
ghost use Rattle.pipe_laws.specs.Flow.{Streams};
ghost use Rattle.pipe_laws.specs.Count.{Counted, AtMost, Formula};
ghost use Rattle.pipe_laws.specs.World.{Worlds};
ghost use Rattle.pipe_laws.specs.Play.{Interleavings, SomeCanStep};
ghost use Rattle.pipe_laws.specs.Slots.{OneStep};

/// Where the scripts of the actors are tied, some actor can make its next move at every list of
/// places at which one of them isn't behind the last step, whether or not events lead there.
pub fn some_actor_can_move()
    ensures { NeverStuck }
{}

/// Each event that can happen keeps pops at most pushes, and pushes at most pops and slots.
pub fn events_keep_states()
    ensures { StatesKept }
{}

/// The scripts of a pipeline are tied: each push finds its slot and each pop its item behind the
/// moves that come first, and each item that is popped was pushed by such a move.
pub fn scripts_of_pipelines_are_tied()
    ensures tied { ScriptsAreTied }
    ensures pops { PopsAreTied }
{}

/// Whatever came in which order, each actor is where its script and the streams leave it, and each
/// list that was sent begins its stream.
pub fn sent_lists_begin_streams<X, M>()
    ensures { Streams X M }
{}

/// Each event that can happen keeps what was received a prefix of what was sent.
pub fn events_keep_prefixes<X, M>()
    ensures { Worlds X M }
{}

/// After every list of events that can happen from the start, what was received on a ring begins
/// what was sent there, and what was sent begins the ring's stream.
///
/// And while one of the actors isn't behind the last step to which the scripts are tied, some
/// actor's next move finds an item or a slot.
pub fn interleavings_follow_streams<X, M>()
    ensures prefixes { Interleavings X M }
    ensures moves { SomeCanStep X M }
{}

/// The number of events: that of all moves in the scripts, where nobody can move any more, and
/// never more. For a pipeline it is a formula of its steps, stages, lines and fed registers.
pub fn events_have_a_number()
    ensures exact { Counted }
    ensures most { AtMost }
    ensures formula { Formula }
{}

/// Over one step a stage's slots hold the solution's values.
pub fn slots_hold_solutions()
    ensures { OneStep }
{}
