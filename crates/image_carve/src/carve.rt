//! One tablespace out of an image.

ghost use Rattle.std.specs.Prelude.{◌≡◌, ◌≢◌, ◌≤◌, ◌<◌, [], Err, OnOk};
ghost use Rattle.page_source.specs.Faults.{Rose};
ghost use Rattle.image_carve.specs.Carved.{known};
ghost use Rattle.image_carve.specs.Takes.{TakesTold};
ghost use Rattle.image_carve.specs.Carving.{PutsNewer, CarvesTold};
ghost use Rattle.image_carve.specs.declared.taken.TakeStop.{TakeStop};

use crate::file::PageFile;
use crate::lsns::NewestLsns;
use crate::taken::{TakeStop, Taken};
use page_scan::{Scanner, lsn};
use page_source::{ByteSource, Page};
use std::alloc::Global;

/// Goes through the image once, and puts each page of the space that is found into the file, as it is met, if it is
/// newer than what was put under its number, or the first there. The file is not touched before the first such page.
pub fn take<Q: ByteSource, F: PageFile>(
    alloc: Global,
    image: &mut Q,
    space: u32,
    file: &mut F,
) -> Result<Taken, TakeStop>
    ensures told { TakesTold (Q.left image.old) space (F.held file.old) (F.held file.new) result }
    ensures source { result ≡ Err TakeStop.Source → Rose (Q.faults image.old) (Q.faults image.new) }
    ensures store { result ≡ Err TakeStop.Store → Rose (F.faults file.old) (F.faults file.new) }
    ensures nothing { result ≡ Err TakeStop.Nothing → file.new ≡ file.old }
    ensures source_later { Q.faults image.old ≤ Q.faults image.new }
    ensures store_later { F.faults file.old ≤ F.faults file.new }
{
    let mut newest = NewestLsns::new(alloc);
    carve(alloc, &mut newest, image, space, file)?;
    newest.taken().ok_or(TakeStop::Nothing)
}

/// Puts the newest version of each page of the space, and notes its LSN.
fn carve<Q: ByteSource, F: PageFile>(
    alloc: Global,
    newest: &mut NewestLsns,
    image: &mut Q,
    space: u32,
    file: &mut F,
) -> Result<(), TakeStop>
    requires { newest.old ≡ [] }
    ensures told { CarvesTold (Q.left image.old) space (F.held file.old)
        (record { lsns = newest.new; held = F.held file.new }) result }
    ensures untouched { OnOk result (known newest.new ≡ [] → file.new ≡ file.old) }
    ensures some { result ≢ Err TakeStop.Nothing }
    ensures source { result ≡ Err TakeStop.Source → Rose (Q.faults image.old) (Q.faults image.new) }
    ensures store { result ≡ Err TakeStop.Store → Rose (F.faults file.old) (F.faults file.new) }
    ensures source_later { Q.faults image.old ≤ Q.faults image.new }
    ensures store_later { F.faults file.old ≤ F.faults file.new }
{
    let mut page = Page::zeroed(alloc)?;
    let mut scanner = Scanner::new(alloc)?;
    for _turn in 0..u64::MAX {
        let Ok(next) = scanner.next(image, &mut page) else {
            return Err(TakeStop::Source);
        };
        let Some(found) = next else {
            return Ok(());
        };
        if found.space != space {
            continue;
        }
        put_newer(newest, found.number, &page, file)?;
    }
    Ok(())
}

/// Puts the page if it is newer than the one that was put under its number, or the first there, and notes its LSN.
fn put_newer<F: PageFile>(
    newest: &mut NewestLsns,
    n: u32,
    page: &Page,
    file: &mut F,
) -> Result<(), TakeStop>
    requires { n < 4194304 }
    ensures puts { PutsNewer (record { lsns = newest.old; held = F.held file.old })
        (record { lsns = newest.new; held = F.held file.new }) n page.now result }
    ensures untouched { OnOk result
        (known newest.new ≡ [] → (file.new ≡ file.old) × (newest.new ≡ newest.old)) }
    ensures store { result ≡ Err TakeStop.Store → Rose (F.faults file.old) (F.faults file.new) }
    ensures later { F.faults file.old ≤ F.faults file.new }
{
    let lsn = lsn(page);
    if !newest.is_newer(n, lsn) {
        return Ok(());
    }
    newest.note(n, lsn)?;
    if file.put(n, page).is_err() {
        return Err(TakeStop::Store);
    }
    Ok(())
}
