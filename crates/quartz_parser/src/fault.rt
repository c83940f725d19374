//! Why tokens derive no module or text.

ghost use Rattle.std.specs.Prelude.{◌≡◌};
ghost use Rattle.quartz_parser.specs.declared.fault.ParseFault.TheVariants.{NoMemory as no_memory};

use quartz_tree::{NoMemory, Place};
use std::alloc::{AllocError, AllocFailed};
use thiserror::Error;

/// Why tokens are not those of a module or of a text.
#[derive(Clone, Copy, Debug, PartialEq, Eq, Error)]
pub enum ParseFault {
    /// With the token at this place, or the end of the text, no module or text of at most 64 levels
    /// can begin so.
    #[error("S2 at {}:{}", .0.line, .0.col)]
    S2(Place),
    #[error("no memory")]
    NoMemory,
}

impl From<NoMemory> for ParseFault {
    ghost from_gives = { λ _ e. e ≡ no_memory };

    fn from(_e: NoMemory) -> ParseFault {
        ParseFault::NoMemory
    }
}

impl From<AllocError> for ParseFault {
    ghost from_gives = { λ _ e. e ≡ no_memory };

    fn from(_e: AllocError) -> ParseFault {
        ParseFault::NoMemory
    }
}

impl<T: Drop> From<AllocFailed<T>> for ParseFault {
    ghost from_gives = { λ _ e. e ≡ no_memory };

    fn from(_e: AllocFailed<T>) -> ParseFault {
        ParseFault::NoMemory
    }
}
