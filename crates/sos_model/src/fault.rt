//! Why a term has no reaction, and why a walk finds nothing.

ghost use Rattle.std.specs.Prelude.{◌≡◌};
ghost use Rattle.sos_model.specs.declared.fault.ReactFault.TheVariants.{NoMemory as no_memory};
ghost use Rattle.sos_model.specs.declared.fault.WalkFault.TheVariants.{NoMemory as walk_no_memory};

use quartz_tree::NoMemory;
use std::alloc::{AllocError, AllocFailed};
use thiserror::Error;

/// Why a term has no reaction with the given values for its scopes.
#[derive(Clone, Copy, Debug, PartialEq, Eq, Error)]
pub enum ReactFault {
    /// The list of values is too short.
    #[error("a scope lacks a value")]
    Missing,
    /// The first value that a scope's element should have and the given one, where they differ.
    #[error("a scope's value is {0}, and {1} was given")]
    Differs(i64, i64),
    #[error("no memory")]
    NoMemory,
}

impl From<NoMemory> for ReactFault {
    ghost from_gives = { λ _ e. e ≡ no_memory };

    fn from(_e: NoMemory) -> ReactFault {
        ReactFault::NoMemory
    }
}

impl From<AllocError> for ReactFault {
    ghost from_gives = { λ _ e. e ≡ no_memory };

    fn from(_e: AllocError) -> ReactFault {
        ReactFault::NoMemory
    }
}

impl<T: Drop> From<AllocFailed<T>> for ReactFault {
    ghost from_gives = { λ _ e. e ≡ no_memory };

    fn from(_e: AllocFailed<T>) -> ReactFault {
        ReactFault::NoMemory
    }
}

/// Why a walk finds nothing.
#[derive(Clone, Copy, Debug)]
pub(crate) enum WalkFault {
    /// The list of values is too short.
    Missing,
    NoMemory,
}

impl From<NoMemory> for WalkFault {
    ghost from_gives = { λ _ e. e ≡ walk_no_memory };

    fn from(_e: NoMemory) -> WalkFault {
        WalkFault::NoMemory
    }
}
