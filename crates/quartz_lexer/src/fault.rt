//! Why a text has no tokens.

ghost use Rattle.std.specs.Prelude.{◌≡◌};
ghost use Rattle.quartz_lexer.specs.declared.fault.LexFault.TheVariants.{NoMemory as no_memory};

use quartz_tree::{NoMemory, Place};
use std::alloc::{AllocError, AllocFailed};
use thiserror::Error;

/// Why a text has no tokens.
#[derive(Clone, Copy, Debug, PartialEq, Eq, Error)]
pub enum LexFault {
    /// The text is too long, or at this place stands a byte that begins no token, a number of too
    /// many digits or a comment that isn't closed.
    #[error("S1 at {}:{}", .0.line, .0.col)]
    S1(Place),
    #[error("no memory")]
    NoMemory,
}

impl From<NoMemory> for LexFault {
    ghost from_gives = { λ _ e. e ≡ no_memory };

    fn from(_e: NoMemory) -> LexFault {
        LexFault::NoMemory
    }
}

impl From<AllocError> for LexFault {
    ghost from_gives = { λ _ e. e ≡ no_memory };

    fn from(_e: AllocError) -> LexFault {
        LexFault::NoMemory
    }
}

impl<T: Drop> From<AllocFailed<T>> for LexFault {
    ghost from_gives = { λ _ e. e ≡ no_memory };

    fn from(_e: AllocFailed<T>) -> LexFault {
        LexFault::NoMemory
    }
}
