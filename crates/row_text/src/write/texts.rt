//! Texts with their escapes, as they are put.

ghost use Rattle.std.specs.Prelude.{◌≡◌, ◌*◌, ◌≤◌, length, IsTrue};
ghost use Rattle.page_source.specs.Calls.{Puts};
ghost use Rattle.row_text.specs.Values.{IsPlain, escaped_text, quoted};

use crate::plain::{CHUNK, first_escape, is_plain, is_plain_text};
use crate::write::escaped::write_escaped;
use crate::write::pieces::put_enclosed;
use page_source::{ByteSink, Failed, put_pieces};

/// Puts a part of a text with its escapes, in one piece. It is made in the room.
fn put_chunk<O: ByteSink>(sink: &mut O, chunk: &[u8], room: &mut [u8]) -> Result<(), Failed>
    requires { 2 * length chunk.now ≤ length room.old }
    ensures puts { Puts O.ByteSink sink.old sink.new (escaped_text chunk.now) result }
    ensures same { length room.new ≡ length room.old }
{
    if is_plain(chunk) {
        return sink.put(chunk);
    }
    let n = write_escaped(chunk, room);
    sink.put(&room[..n])
}

/// Puts a long text with its escapes, a chunk at a time.
fn put_chunks<O: ByteSink>(sink: &mut O, text: &[u8]) -> Result<(), Failed>
    ensures { Puts O.ByteSink sink.old sink.new (escaped_text text.now) result }
{
    let mut room = [0; 2 * CHUNK];
    let mut rest = text;
    while rest.len() >= CHUNK {
        let (chunk, more) = rest.split_at(CHUNK);
        put_chunk(sink, chunk, &mut room)?;
        rest = more;
    }
    put_between(sink, rest)
}

/// Puts a text with its escapes.
pub(crate) fn put_escaped<O: ByteSink>(sink: &mut O, text: &[u8]) -> Result<(), Failed>
    ensures { Puts O.ByteSink sink.old sink.new (escaped_text text.now) result }
{
    if text.len() < CHUNK {
        put_between(sink, text)
    } else {
        put_chunks(sink, text)
    }
}

/// Puts a text with its escapes, and in one piece what stands between two of them.
fn put_between<O: ByteSink>(sink: &mut O, text: &[u8]) -> Result<(), Failed>
    ensures { Puts O.ByteSink sink.old sink.new (escaped_text text.now) result }
{
    let mut rest = text;
    while let Some((at, letter)) = first_escape(rest) {
        put_pieces(sink, &[&rest[..at], &[b'\\', letter]])?;
        (_, rest) = rest.split_at(at + 1);
    }
    sink.put(rest)
}

/// Whether a text is short, and each of its bytes stands for itself.
fn is_short_plain(text: &[u8]) -> bool
    ensures { IsTrue result → IsPlain text.now }
{
    text.len() < CHUNK && is_plain_text(text)
}

/// Puts a text in quotes.
pub(crate) fn put_quoted<O: ByteSink>(sink: &mut O, text: &[u8]) -> Result<(), Failed>
    ensures { Puts O.ByteSink sink.old sink.new (quoted (escaped_text text.now)) result }
{
    if is_short_plain(text) {
        return put_enclosed(sink, b"'", text, b"'");
    }
    sink.put(b"'")?;
    put_escaped(sink, text)?;
    sink.put(b"'")
}
