//! The errors of ordering cells.

ghost use Rattle.std.specs.Prelude.{◌≡◌};
ghost use Rattle.causality_check.specs.declared.fault.OrderFault.TheVariants.{NoMemory as no_memory};

use quartz_tree::{NoMemory, Place};
use std::alloc::{AllocError, AllocFailed};
use thiserror::Error;

/// Why cells have no order.
#[derive(Debug, Drop, Error)]
pub enum OrderFault {
    /// These cells lie on a cycle: each depends on the next one, and the last one on the first. The
    /// place is that of the first one.
    #[error("S9 at {}:{}", .1.line, .1.col)]
    Cycle(Vec<u32>, Place),
    #[error("no memory")]
    NoMemory,
}

impl From<NoMemory> for OrderFault {
    ghost from_gives = { λ _ e. e ≡ no_memory };

    fn from(_e: NoMemory) -> OrderFault {
        OrderFault::NoMemory
    }
}

impl From<AllocError> for OrderFault {
    ghost from_gives = { λ _ e. e ≡ no_memory };

    fn from(_e: AllocError) -> OrderFault {
        OrderFault::NoMemory
    }
}

impl<T: Drop> From<AllocFailed<T>> for OrderFault {
    ghost from_gives = { λ _ e. e ≡ no_memory };

    fn from(_e: AllocFailed<T>) -> OrderFault {
        OrderFault::NoMemory
    }
}
