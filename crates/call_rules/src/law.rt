//! The law of linked sizes. The function does nothing, and its contract states the law.

ghost use Rattle.call_rules.specs.Laws.{LinkedHasSize};

/// The statements and levels of a linked body are those that are counted without linking, where a call counts as the
/// block in its place.
pub fn linked_sizes_are_counted()
    ensures { LinkedHasSize }
{}
