//! Tokens with their values.

ghost use Rattle.std.specs.Prelude.{◌≡◌};
ghost use Rattle.quartz_tree.specs.declared.place.Place.{Place};
ghost use Rattle.quartz_parser.specs.Machine.{rank as rank_of};
ghost use Rattle.quartz_parser.specs.Views.{token, is_mark as is_this};

use crate::symbol::{Mark, Scalar};
use quartz_tree::{Binary, Storage};

/// A token with its value.
#[derive(Clone, Copy)]
pub enum Item<'a> {
    Mark(Mark),
    Name(&'a str),
    Number(u128),
    Bits { width: u32, value: u128 },
    Truth(bool),
    Storage(Storage),
    Scalar(Scalar),
    /// A sign between two operands, `-` too.
    Infix(Binary),
    /// `abort`, and `suspend` with false.
    Preempt(bool),
    Other,
}

fn rank(mark: Mark) -> u8
    ensures { result ≡ rank_of mark }
{
    mark as u8
}

/// Whether it is this mark.
pub fn is_mark(item: Item<'_>, mark: Mark) -> bool
    ensures { (p : Place) → result ≡ is_this mark (token item.entry p) }
{
    match item {
        Item::Mark(found) => rank(found) == rank(mark),
        _ => false,
    }
}
