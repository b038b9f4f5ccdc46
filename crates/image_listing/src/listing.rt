//! The listing of an image.

ghost use Rattle.std.specs.Prelude.{◌≡◌, ◌≢◌, ◌<◌, ◌≤◌, ◌^◌, [], length, Some, Err, IfSome, IfOk};
ghost use Rattle.page_source.specs.Faults.{Rose};
ghost use Rattle.image_listing.specs.Versions.{IsCatalogue};
ghost use Rattle.image_listing.specs.Calls.{Lists, ListsOver};

use crate::catalogue::Catalogue;
use crate::lines::Lines;
use page_scan::Scanner;
use page_source::{ByteSink, ByteSource, NoMemory, Page};
use std::alloc::Global;

/// Why a listing stopped.
#[derive(Clone, Copy, Debug, PartialEq, Eq)]
pub enum ListStop {
    /// The image couldn't be read.
    Source,
    /// The output took no more.
    Sink,
    /// Memory ran out.
    Memory,
}

impl From<NoMemory> for ListStop {
    ghost use Rattle.image_listing.specs.declared.listing.ListStop.{ListStop};

    ghost from_gives = { λ _ stop. stop ≡ ListStop.Memory };

    fn from(_: NoMemory) -> Self {
        ListStop::Memory
    }
}

/// Puts a line for each space of which a page stands in the image, and for each of its indexes. The image is read once,
/// from front to end; of each page number of each space some 40 bytes are kept.
pub fn list<Q: ByteSource, O: ByteSink>(
    alloc: Global,
    image: &mut Q,
    out: &mut O,
) -> Result<(), ListStop>
    ensures told { IfSome (Q.left image.old) (λ bytes.
        length bytes < 2 ^ 64 → Lists bytes (Q.left image.new) (O.written out.old) (O.written out.new) result) }
    ensures over { ListsOver Q.ByteSource O.ByteSink image.old image.new out.old out.new result }
{
    let catalogue = read_catalogue(alloc, image)?;
    let lines = Lines::of(alloc, catalogue)?;
    match lines.put(out) {
        Ok(()) => Ok(()),
        Err(_) => Err(ListStop::Sink),
    }
}

/// Reads the image to its end, and keeps the newest version of each page that is found.
fn read_catalogue<Q: ByteSource>(alloc: Global, image: &mut Q) -> Result<Catalogue, ListStop>
    ensures all { IfOk result (λ catalogue. IfSome (Q.left image.old) (λ bytes.
        length bytes < 2 ^ 64 → IsCatalogue bytes catalogue.pages)) }
    ensures read { IfOk result (λ catalogue. IfSome (Q.left image.old) (λ bytes.
        length bytes < 2 ^ 64 → Q.left image.new ≡ Some [])) }
    ensures later { Q.faults image.old ≤ Q.faults image.new }
    ensures source { result ≡ Err ListStop.Source → Rose (Q.faults image.old) (Q.faults image.new) }
    ensures sink { result ≢ Err ListStop.Sink }
{
    let mut scanner = Scanner::new(alloc)?;
    let mut page = Page::zeroed(alloc)?;
    let mut catalogue = Catalogue::new(alloc);
    for _ in 0..u64::MAX {
        match scanner.next(image, &mut page) {
            Ok(Some(found)) => catalogue.note(found, &page)?,
            Ok(None) => return Ok(catalogue),
            Err(_) => return Err(ListStop::Source),
        }
    }
    Err(ListStop::Memory)
}
