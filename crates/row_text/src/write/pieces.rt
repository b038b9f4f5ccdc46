//! Pieces that are put one after another. They are inlined, so that a piece of known length is a store or two.

ghost use Rattle.std.specs.Prelude.{◌++◌};
ghost use Rattle.page_source.specs.Calls.{Puts};

use page_source::{ByteSink, Failed};

/// Puts two pieces.
#[inline(always)]
pub(crate) fn put_two<O: ByteSink>(sink: &mut O, first: &[u8], second: &[u8]) -> Result<(), Failed>
    ensures { Puts O.ByteSink sink.old sink.new (first.now ++ second.now) result }
{
    sink.put(first)?;
    sink.put(second)
}

/// Puts a piece between two others.
#[inline(always)]
pub(crate) fn put_enclosed<O: ByteSink>(
    sink: &mut O,
    front: &[u8],
    piece: &[u8],
    back: &[u8],
) -> Result<(), Failed>
    ensures { Puts O.ByteSink sink.old sink.new (front.now ++ piece.now ++ back.now) result }
{
    put_two(sink, front, piece)?;
    sink.put(back)
}
