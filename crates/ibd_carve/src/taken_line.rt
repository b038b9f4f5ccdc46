//! The line of a tablespace that was put together.

ghost use Rattle.page_source.specs.Calls.{Puts};
ghost use Rattle.ibd_carve.specs.Lines.{taken_line};

use image_carve::Taken;
use itoa::Buffer;
use page_source::{ByteSink, Failed, put_pieces};

/// Puts how many pages the file has got, of how many, and their greatest LSN.
pub(crate) fn put_taken<O: ByteSink>(out: &mut O, taken: Taken) -> Result<(), Failed>
    ensures { Puts O.ByteSink out.old out.new (taken_line taken) result }
{
    let mut pages = Buffer::new();
    let mut size = Buffer::new();
    let mut newest = Buffer::new();
    let pieces = [
        b"pages=".as_slice(),
        pages.format(taken.pages).as_bytes(),
        b" of=",
        size.format(taken.size).as_bytes(),
        b" newest=",
        newest.format(taken.newest).as_bytes(),
        b"\n",
    ];
    put_pieces(out, &pieces)
}
