//! Places in a text, and their order.

ghost use Rattle.std.specs.Prelude.{◌≡◌};
ghost use Rattle.quartz_tree.specs.Least.{is_before};

/// A place in a text. Lines and columns count from 1, and columns count bytes.
///
/// Places are ordered by line, then by column.
#[derive(Clone, Copy, Debug, PartialEq, Eq, PartialOrd, Ord)]
pub struct Place {
    pub line: u32,
    pub col: u32,
}

impl Place {
    /// Whether this place stands before the other.
    pub fn is_before(self, other: Place) -> bool
        ensures { result ≡ is_before self other }
    {
        self.line < other.line || (self.line == other.line && self.col < other.col)
    }
}
