//! Why a resolved module is refused.

use quartz_tree::Place;
use thiserror::Error;

/// Why a module is not typed.
#[derive(Clone, Copy, Debug, PartialEq, Eq, Error)]
pub enum TypeFault {
    /// The module breaks this rule, 4 to 7, first, and this is the least place where it does.
    #[error("S{} at {}:{}", .0, .1.line, .1.col)]
    Rule(u8, Place),
    #[error("no memory")]
    NoMemory,
}
