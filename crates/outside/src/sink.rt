//! What a sink owes: bytes that go outside.

ghost use Rattle.std.specs.Prelude.{◌≡◌, ℕ, ◌<◌, ◌≤◌, List, length, take, IfOk, OnErr};
ghost use Rattle.outside.specs.Bytes.{Rose, Gains, StillStands};
ghost use Rattle.outside.specs.Puts.{Puts};

use crate::source::Failed;

/// Bytes that go outside.
pub trait Sink {
    // the lists of bytes for which the sink stands. One that stands for one list alone tells it
    ghost stands: { Self → List ℕ → Type 0 };

    // how many faults there were
    ghost faults: { Self → ℕ };

    /// Takes at least one byte from the front of `piece`. A failure takes none.
    fn put(&mut self, piece: &[u8]) -> Result<usize, Failed>
        requires some { 0 < length piece.now }
        ensures never_falls { faults self.old ≤ faults self.new }
        ensures within { IfOk result (λ n. (0 < n) × (n ≤ length piece.now)) }
        ensures gained { IfOk result
            (λ n. Gains (stands self.old) (stands self.new) (take n piece.now)) }
        ensures rose { OnErr result (Rose (faults self.old) (faults self.new)) }
        ensures kept { OnErr result (StillStands (stands self.old) (stands self.new)) };
}

/// A sink that never fails and keeps nothing, so that it stands for every list.
#[derive(Clone, Copy, Debug, PartialEq, Eq)]
pub struct SureSink;

impl Sink for SureSink {
    ghost stands = { λ _ _. Unit {0} };

    ghost faults = { λ _. 0 };

    fn put(&mut self, piece: &[u8]) -> Result<usize, Failed> {
        Ok(piece.len())
    }
}

/// Puts the whole piece, the rest again while the sink takes less. An empty piece is not put.
pub fn put_whole<O: Sink>(out: &mut O, piece: &[u8]) -> Result<(), Failed>
    ensures { Puts O.stands O.faults result out.old out.new piece.now }
{
    let mut at = 0;
    while at < piece.len() {
        at += out.put(&piece[at..])?;
    }
    Ok(())
}
