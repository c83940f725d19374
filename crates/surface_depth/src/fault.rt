//! The errors of compiling a module.

ghost use Rattle.std.specs.Prelude.{◌≡◌};
ghost use Rattle.surface_depth.specs.declared.fault.CompileFault.TheVariants.{NoMemory as no_memory};

use quartz_tree::NoMemory;
use std::alloc::{AllocError, AllocFailed};
use thiserror::Error;

/// Why a module isn't compiled.
#[derive(Clone, Copy, Debug, PartialEq, Eq, Error)]
pub enum CompileFault {
    /// Cells, registers and elements of inputs are more than 65,536 together.
    #[error("too many cells, registers and inputs")]
    S8,
    #[error("no memory")]
    NoMemory,
}

impl From<NoMemory> for CompileFault {
    ghost from_gives = { λ _ e. e ≡ no_memory };

    fn from(_e: NoMemory) -> CompileFault {
        CompileFault::NoMemory
    }
}

impl From<AllocError> for CompileFault {
    ghost from_gives = { λ _ e. e ≡ no_memory };

    fn from(_e: AllocError) -> CompileFault {
        CompileFault::NoMemory
    }
}

impl<T: Drop> From<AllocFailed<T>> for CompileFault {
    ghost from_gives = { λ _ e. e ≡ no_memory };

    fn from(_e: AllocFailed<T>) -> CompileFault {
        CompileFault::NoMemory
    }
}
