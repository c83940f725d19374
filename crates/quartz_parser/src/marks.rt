//! The marks for which a reader waits.

use crate::symbol::Mark;

/// The marks that have to come first, in order.
#[derive(Clone, Copy)]
pub enum Marks {
    Zero,
    One(Mark),
    Two(Mark, Mark),
}
