//! What a shelf owes: texts by name.

ghost use Rattle.std.specs.Prelude.{◌≡◌, ℕ, ◌≤◌, List, Option, length, IfOk, OnErr};
ghost use Rattle.outside.specs.Bytes.{Fetched, Unfetched};

use crate::source::Failed;

/// Texts by name.
pub trait Shelf {
    // the text of each name that has one, where the shelf tells its texts
    ghost texts: { Self → Option (List ℕ → Option (List ℕ)) };

    // how many faults there were
    ghost faults: { Self → ℕ };

    /// Fills `buf` from its front with the named text, as far as both go, and answers how many
    /// bytes that are. It fails only by a fault, or where the shelf tells its texts and has none of that
    /// name. Such an absence by itself is no fault.
    fn fetch(&mut self, name: &str, buf: &mut [u8]) -> Result<usize, Failed>
        ensures never_falls { faults self.old ≤ faults self.new }
        ensures same_texts { texts self.new ≡ texts self.old }
        ensures within { IfOk result (λ n. n ≤ length buf.old) }
        ensures fetched { IfOk result (λ n. Fetched (texts self.old) name.now n buf.new) }
        ensures unfetched { OnErr result
            (Unfetched (texts self.old) name.now (faults self.old) (faults self.new)) };
}
