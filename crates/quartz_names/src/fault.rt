//! Why the names of a module have no numbers.

ghost use Rattle.std.specs.Prelude.{◌≡◌};
ghost use Rattle.quartz_names.specs.declared.fault.NamesFault.TheVariants.{NoMemory as no_memory};

use quartz_tree::{NoMemory, Place};
use std::alloc::{AllocError, AllocFailed};
use thiserror::Error;

/// Why the names of a module have no numbers.
#[derive(Clone, Copy, Debug, PartialEq, Eq, Error)]
pub enum NamesFault {
    /// At this place a name is used that isn't declared, or is declared a second time in one
    /// parameter list or one block's head.
    #[error("S3 at {}:{}", .0.line, .0.col)]
    S3(Place),
    #[error("no memory")]
    NoMemory,
}

impl From<NoMemory> for NamesFault {
    ghost from_gives = { λ _ e. e ≡ no_memory };

    fn from(_e: NoMemory) -> NamesFault {
        NamesFault::NoMemory
    }
}

impl From<AllocError> for NamesFault {
    ghost from_gives = { λ _ e. e ≡ no_memory };

    fn from(_e: AllocError) -> NamesFault {
        NamesFault::NoMemory
    }
}

impl<T: Drop> From<AllocFailed<T>> for NamesFault {
    ghost from_gives = { λ _ e. e ≡ no_memory };

    fn from(_e: AllocFailed<T>) -> NamesFault {
        NamesFault::NoMemory
    }
}
