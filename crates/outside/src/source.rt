//! What a source owes: bytes that come from outside.

ghost use Rattle.std.specs.Prelude.{◌≡◌, ℕ, ◌<◌, ◌≤◌, List, Option, length, IfOk, OnErr};
ghost use Rattle.outside.specs.Bytes.{Rose, Moved, Counted};

use thiserror::Error;

/// A read, a write or a fetch failed.
#[derive(Clone, Copy, Debug, PartialEq, Eq, Error)]
#[error("failed")]
pub struct Failed;

/// Bytes that come from outside.
pub trait Source {
    // the bytes left, where the source tells them
    ghost left: { Self → Option (List ℕ) };

    // how many faults there were
    ghost faults: { Self → ℕ };

    // how often `take` was called, where the source tells that
    ghost calls: { Self → Option ℕ };

    /// Moves some of the bytes left to the front of `buf`: none exactly where none are left.
    /// After a failure nothing is lost.
    fn take(&mut self, buf: &mut [u8]) -> Result<usize, Failed>
        requires room { 0 < length buf.old }
        ensures never_falls { faults self.old ≤ faults self.new }
        ensures counted { Counted (calls self.old) (calls self.new) }
        ensures within { IfOk result (λ n. n ≤ length buf.old) }
        ensures moved { IfOk result (λ n. Moved (left self.old) (left self.new) n buf.new) }
        ensures rose { OnErr result (Rose (faults self.old) (faults self.new)) }
        ensures kept { OnErr result (left self.new ≡ left self.old) };
}
