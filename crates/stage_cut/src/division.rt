//! What a cut is.

/// A division of weights into contiguous parts, of which the heaviest weighs least.
#[derive(Debug, PartialEq, Eq, Drop)]
pub struct Cut {
    /// The place at which each part ends, in order: the number of weights up to there.
    pub ends: Vec<u32>,
    /// The weight of the heaviest part.
    pub weight: u64,
    /// Shows that no division has all parts below `weight`. These are the first places at which
    /// parts begin that are each in turn as long as `weight - 1` allows, one more than there are
    /// parts: from each to the next, that one's cell included, the weight is at least `weight`. It
    /// is empty where `weight` is 0 or the weight of one cell.
    pub proof: Vec<u32>,
}
