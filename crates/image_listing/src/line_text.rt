//! The text of a line.

ghost use Rattle.page_source.specs.Calls.{Puts};
ghost use Rattle.image_listing.specs.Listing.{line_text, index_text, counts_text};
ghost use Rattle.image_listing.specs.Tallies.{line_of};

use crate::lines::Tally;
use itoa::Buffer;
use page_source::{ByteSink, Failed, put_pieces};

/// Puts the line of a space, or of one of its indexes.
pub(crate) fn put_line<O: ByteSink>(
    out: &mut O,
    key: (u32, Option<u64>),
    tally: Tally,
) -> Result<(), Failed>
    ensures { Puts O.ByteSink out.old out.new (line_text (line_of (key, tally))) result }
{
    let mut space = Buffer::new();
    let pieces = [b"space ".as_slice(), space.format(key.0).as_bytes()];
    put_pieces(out, &pieces)?;
    put_index(out, key.1, tally.leaves)?;
    put_counts(out, tally)
}

/// Puts the words of a line that has an index.
fn put_index<O: ByteSink>(out: &mut O, index: Option<u64>, leaves: u64) -> Result<(), Failed>
    ensures { Puts O.ByteSink out.old out.new (index_text index leaves) result }
{
    let Some(id) = index else {
        return out.put(b"");
    };
    let mut digits = Buffer::new();
    let mut count = Buffer::new();
    let pieces = [
        b" index ".as_slice(),
        digits.format(id).as_bytes(),
        b" leaves ",
        count.format(leaves).as_bytes(),
    ];
    put_pieces(out, &pieces)
}

/// Puts how many pages a line counts, and their greatest LSN.
fn put_counts<O: ByteSink>(out: &mut O, tally: Tally) -> Result<(), Failed>
    ensures { Puts O.ByteSink out.old out.new (counts_text tally.pages tally.newest) result }
{
    let mut pages = Buffer::new();
    let mut newest = Buffer::new();
    let pieces = [
        b" pages ".as_slice(),
        pages.format(tally.pages).as_bytes(),
        b" newest ",
        newest.format(tally.newest).as_bytes(),
        b"\n",
    ];
    put_pieces(out, &pieces)
}
