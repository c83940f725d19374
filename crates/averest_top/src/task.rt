//! What a command asks of a module.

ghost use Rattle.std.specs.Prelude.{◌≡◌};
ghost use Rattle.averest_top.specs.Commands.{is_strict_in, module_in, task_in, wants_pairs_in};

use command_words::Command;
use quartz_tree::Name;

/// What is asked of a module.
#[derive(Clone, Copy, Debug, PartialEq, Eq)]
pub enum Task {
    /// Run it on the trace, in at most so many steps.
    Run { most_steps: u32 },
    /// Say how large it is; `is_strict` refuses loose pairs of writes.
    Check { is_strict: bool },
    /// Write its cells.
    Aif,
    /// Run it on the trace that a seed generates for so many steps.
    Load { seed: u64, steps: u32 },
    /// Write the trace of its inputs anew in format 1 or 2.
    Convert { to: u32 },
}

impl Task {
    /// Whether loose pairs of writes are counted.
    pub(crate) fn wants_pairs(self) -> bool
        ensures { result ≡ wants_pairs_in self }
    {
        match self {
            Task::Check { .. } => true,
            _ => false,
        }
    }

    /// Whether they are refused.
    pub(crate) fn is_strict(self) -> bool
        ensures { result ≡ is_strict_in self }
    {
        match self {
            Task::Check { is_strict } => is_strict,
            _ => false,
        }
    }
}

/// What a command asks of its module, where that is built.
pub(crate) fn task_of(command: &Command) -> Option<Task>
    ensures { result ≡ task_in command.now }
{
    match command {
        Command::Run {
            max_steps,
            witness: false,
            ..
        } => Some(Task::Run {
            most_steps: *max_steps,
        }),
        Command::Check { strict, .. } => Some(Task::Check { is_strict: *strict }),
        Command::Aif { .. } => Some(Task::Aif),
        Command::Load { seed, steps, .. } => Some(Task::Load {
            seed: *seed,
            steps: *steps,
        }),
        Command::Convert { to, .. } => Some(Task::Convert { to: *to }),
        _ => None,
    }
}

/// The module that a command names.
pub(crate) fn module_of(command: &Command) -> &Name
    ensures { result.now ≡ module_in command.now }
{
    match command {
        Command::Run { module, .. } => module,
        Command::Check { module, .. } => module,
        Command::Aif { module } => module,
        Command::Plan { module, .. } => module,
        Command::Load { module, .. } => module,
        Command::Convert { module, .. } => module,
        Command::Verify { module } => module,
    }
}
