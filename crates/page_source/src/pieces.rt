//! Several pieces that are put one after another.

ghost use Rattle.std.specs.Prelude.{flat_map};
ghost use Rattle.page_source.specs.Calls.{Puts};

use crate::errors::Failed;
use crate::objects::ByteSink;

/// Puts the pieces, up to the first that fails. After `Failed` a prefix of their bytes was put.
pub fn put_pieces<O: ByteSink>(sink: &mut O, pieces: &[&[u8]]) -> Result<(), Failed>
    ensures { Puts O.ByteSink sink.old sink.new (flat_map (λ piece. piece.now) pieces.now) result }
{
    for piece in pieces {
        sink.put(piece)?;
    }
    Ok(())
}
