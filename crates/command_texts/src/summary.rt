//! What `load` writes of a run.

ghost use Rattle.outside.specs.Puts.{Puts};
ghost use Rattle.command_texts.specs.Texts.{summary_of};

use crate::number::put_counted;
use outside::{Failed, Sink, put_whole};
use trace_io::CountSink;

/// Puts the two lines of a run of so many steps whose lines were put to a counting sink: the steps
/// and the number of bytes, and the last line. It takes no memory.
pub fn put_summary<O: Sink>(out: &mut O, steps: u64, counted: &CountSink) -> Result<(), Failed>
    ensures { Puts O.stands O.faults result out.old out.new (summary_of steps counted.now) }
{
    put_counted(out, b"steps ", steps)?;
    put_counted(out, b" bytes ", counted.bytes())?;
    put_whole(out, b"\nlast ")?;
    put_whole(out, counted.last())
}
