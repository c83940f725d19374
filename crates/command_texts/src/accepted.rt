//! What `check` writes of an accepted module.

ghost use Rattle.outside.specs.Puts.{Puts};
ghost use Rattle.command_texts.specs.Texts.{accepted_text};

use crate::number::put_counted;
use outside::{Failed, Sink, put_whole};

/// Puts the line of an accepted module: how many cells and registers it has, and how many pairs of
/// writes are loose. It takes no memory.
pub fn put_accepted<O: Sink>(
    out: &mut O,
    cells: u64,
    registers: u64,
    loose: u64,
) -> Result<(), Failed>
    ensures { Puts O.stands O.faults result out.old out.new (accepted_text cells registers loose) }
{
    put_counted(out, b"accepted cells ", cells)?;
    put_counted(out, b" registers ", registers)?;
    put_counted(out, b" loose ", loose)?;
    put_whole(out, b"\n")
}
