//! The commands, and why words are none.

ghost use Rattle.std.specs.Prelude.{◌≡◌};
ghost use Rattle.command_words.specs.declared.command.WordsFault.TheVariants.{NoMemory as no_memory};

use quartz_tree::{Name, NoMemory};
use thiserror::Error;

/// What a user asks for. `stages` and `workers` are 1 to 16, `ring` is 1 to 64.
#[derive(Debug, Drop)]
pub enum Command {
    /// Run a module on a trace of at most `max_steps` steps, at least 1, and write a witness if one
    /// is asked for.
    Run {
        module: Name,
        stages: u32,
        workers: u32,
        ring: u32,
        max_steps: u32,
        witness: bool,
    },
    /// Say how large a module's cells are; `strict` refuses loose pairs.
    Check {
        module: Name,
        strict: bool,
    },
    /// Write the cells of a module.
    Aif {
        module: Name,
    },
    /// Write the plan of a module for so many stages.
    Plan {
        module: Name,
        stages: u32,
    },
    /// Run a module on 1 to 1000000 generated steps.
    Load {
        module: Name,
        seed: u64,
        steps: u32,
        stages: u32,
        workers: u32,
        ring: u32,
    },
    /// Write a trace anew in format 1 or 2.
    Convert {
        module: Name,
        to: u32,
    },
    /// Check a witness.
    Verify {
        module: Name,
    },
}

/// Why there is no command.
#[derive(Clone, Copy, Debug, PartialEq, Eq, Error)]
pub enum WordsFault {
    /// The words are no command.
    #[error("the words are no command")]
    Usage,
    #[error("no memory")]
    NoMemory,
}

impl From<NoMemory> for WordsFault {
    ghost from_gives = { λ _ e. e ≡ no_memory };

    fn from(_e: NoMemory) -> WordsFault {
        WordsFault::NoMemory
    }
}
