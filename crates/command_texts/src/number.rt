//! A number behind a text.

ghost use Rattle.outside.specs.Puts.{Puts};
ghost use Rattle.command_texts.specs.Texts.{counted_text};

use itoa::Buffer;
use outside::{Failed, Sink, put_whole};

/// Puts a text, and a number behind it.
pub(crate) fn put_counted<O: Sink>(out: &mut O, text: &[u8], number: u64) -> Result<(), Failed>
    ensures { Puts O.stands O.faults result out.old out.new (counted_text text.now number) }
{
    put_whole(out, text)?;
    let mut digits = Buffer::new();
    put_whole(out, digits.format(number).as_bytes())
}
