//! Pieces of a line, and their texts.

ghost use Rattle.std.specs.Prelude.{◌++◌, decimal};
ghost use Rattle.std.specs.Fmt.{signed_decimal};
ghost use Rattle.outside.specs.Puts.{Puts};
ghost use Rattle.aif_cells.specs.Text.{ref_text};
ghost use Rattle.aif_cells.specs.Put.{piece_text, pieces_text};

use crate::reference::Ref;
use itoa::Buffer;
use outside::{Failed, Sink, put_whole};

/// A piece of a line.
#[derive(Clone, Copy, Debug)]
pub(crate) enum Piece<'a> {
    Bytes(&'a [u8]),
    Count(u128),
    Number(i64),
    Of(Ref),
}

/// Puts bytes.
pub(crate) fn put<O: Sink>(out: &mut O, bytes: &[u8]) -> Result<(), Failed>
    ensures { Puts O.stands O.faults result out.old out.new bytes.now }
{
    put_whole(out, bytes)
}

/// Puts a number's digits.
pub(crate) fn put_count<O: Sink>(out: &mut O, count: u128) -> Result<(), Failed>
    ensures { Puts O.stands O.faults result out.old out.new (decimal count) }
{
    let mut digits = Buffer::new();
    put(out, digits.format(count).as_bytes())
}

fn put_number<O: Sink>(out: &mut O, number: i64) -> Result<(), Failed>
    ensures { Puts O.stands O.faults result out.old out.new (signed_decimal number) }
{
    let mut digits = Buffer::new();
    put(out, digits.format(number).as_bytes())
}

/// Puts a reference: a number, or a letter and a number.
pub(crate) fn put_reference<O: Sink>(out: &mut O, reference: Ref) -> Result<(), Failed>
    ensures { Puts O.stands O.faults result out.old out.new (ref_text reference) }
{
    match reference {
        Ref::Lit(number) => put_number(out, number),
        Ref::Input(at) => put_lettered(out, b"i", at),
        Ref::Reg(at) => put_lettered(out, b"r", at),
        Ref::Cell(at) => put_lettered(out, b"c", at),
    }
}

fn put_lettered<O: Sink>(out: &mut O, letter: &[u8], at: u32) -> Result<(), Failed>
    ensures { Puts O.stands O.faults result out.old out.new (letter.now ++ decimal at) }
{
    put(out, letter)?;
    put_count(out, at as u128)?;
    Ok(())
}

fn put_piece<O: Sink>(out: &mut O, piece: Piece<'_>) -> Result<(), Failed>
    ensures { Puts O.stands O.faults result out.old out.new (piece_text 0 piece.entry) }
{
    match piece {
        Piece::Bytes(bytes) => put(out, bytes),
        Piece::Count(count) => put_count(out, count),
        Piece::Number(number) => put_number(out, number),
        Piece::Of(reference) => put_reference(out, reference),
    }
}

/// Puts pieces one after another.
pub(crate) fn put_pieces<O: Sink>(out: &mut O, pieces: &[Piece<'_>]) -> Result<(), Failed>
    ensures { Puts O.stands O.faults result out.old out.new (pieces_text pieces.now) }
{
    for piece in pieces {
        put_piece(out, *piece)?;
    }
    Ok(())
}
