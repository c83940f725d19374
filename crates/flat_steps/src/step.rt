//! Steps and their operations.

use aif_cells::{TreeOne, TreeTwo};

/// What a step makes of the numbers in slots. Each `u32` is the number of a slot, but for those that
/// count or name bits.
#[derive(Clone, Copy, Debug, PartialEq, Eq)]
pub enum Operation {
    Literal(i64),
    /// The number in the slot.
    Same(u32),
    One(TreeOne, u32),
    Two(TreeTwo, u32, u32),
    /// The number in the second slot where that in the first isn't 0, else that in the third.
    Ite(u32, u32, u32),
    /// The number in the second slot where the first has this number, else that in the third.
    Pick(u32, i64, u32, u32),
    /// The number where it lies from the first number to the second, else 0.
    Fit(u32, i64, i64),
    /// So many bits of the number, flipped.
    Bnot(u32, u32),
    /// The first slot's number as the bits above so many of the second's.
    Cat(u32, u32, u32),
    /// The bits from the first number down to the second.
    Bits(u32, u32, u32),
}

/// A write of one slot.
#[derive(Clone, Copy, Debug, PartialEq, Eq)]
pub struct Step {
    pub to: u32,
    pub operation: Operation,
}
