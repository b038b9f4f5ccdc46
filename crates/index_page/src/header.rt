//! The header of an index page, and its two ends (page0page).

ghost use Rattle.std.specs.Prelude.{◌≡◌, ◌+◌, ◌*◌, ◌≤◌, ◌<◌, ◌↔◌, IsTrue};
ghost use Rattle.page_source.specs.Pages.{num};
ghost use Rattle.index_page.specs.Header.{slot_count, heap_top, heap_count, first_free, record_count, slot_at};
ghost use Rattle.index_page.specs.Header.{free_count};
ghost use Rattle.index_page.specs.Page.{HasHeader, HasEnds, IsOrigin};

use crate::layout::{
    COMPACT_BIT, DIRECTORY_END, FIRST_FREE, HEAP_COUNT, INFIMUM, RECORD_COUNT, SLOT_COUNT,
    SLOT_SIZE, SUPREMUM,
};
use compact_record::layout::{HEAP_START, RECORD_HEADER};
use compact_record::{heap_number, next_field, status};
use page_source::{Page, read_be};

/// PAGE_HEAP_TOP, where the used part of the heap ends.
const HEAP_TOP: usize = 40;

/// REC_STATUS_INFIMUM.
const STATUS_INFIMUM: u8 = 2;

/// REC_STATUS_SUPREMUM.
const STATUS_SUPREMUM: u8 = 3;

/// A field of the page header.
fn field(page: &Page, at: usize) -> usize
    requires { at + 2 ≤ 16384 }
    ensures value { result ≡ num page.now at 2 }
    ensures within { result < 65536 }
{
    read_be::<2>(page, at) as usize
}

/// The number of directory slots.
pub(crate) fn slot_count(page: &Page) -> usize
    ensures value { result ≡ slot_count page.now }
    ensures within { result < 65536 }
{
    field(page, SLOT_COUNT)
}

/// The end of the used part of the heap.
pub(crate) fn heap_top(page: &Page) -> usize
    ensures value { result ≡ heap_top page.now }
    ensures within { result < 65536 }
{
    field(page, HEAP_TOP)
}

/// The number of heap records, infimum and supremum counted.
pub(crate) fn heap_count(page: &Page) -> usize
    ensures value { result ≡ heap_count page.now }
    ensures within { result < 32768 }
{
    field(page, HEAP_COUNT) % COMPACT_BIT
}

/// The first free record, 0 where there is none.
pub(crate) fn first_free(page: &Page) -> usize
    ensures value { result ≡ first_free page.now }
    ensures within { result < 65536 }
{
    field(page, FIRST_FREE)
}

/// PAGE_N_RECS: the number of records in the chain, infimum and supremum not counted.
pub fn record_count(page: &Page) -> usize
    ensures value { result ≡ record_count page.now }
    ensures within { result < 65536 }
{
    field(page, RECORD_COUNT)
}

/// The number of records in the heap besides those of the chain and its ends.
pub(crate) fn free_count(page: &Page) -> usize
    requires { HasHeader page.now }
    ensures value { result ≡ free_count page.now }
    ensures within { result < 32768 }
{
    heap_count(page) - (record_count(page) + 2)
}

/// What directory slot `slot` holds.
pub(crate) fn slot_at(page: &Page, slot: usize) -> usize
    requires { 2 * slot ≤ 16374 }
    ensures { result ≡ slot_at page.now slot }
{
    field(page, DIRECTORY_END - SLOT_SIZE * (slot + 1))
}

/// Whether the numbers of the header fit together.
pub(crate) fn has_header(page: &Page) -> bool
    ensures { IsTrue result ↔ HasHeader page.now }
{
    let slots = slot_count(page);
    let top = heap_top(page);
    slots >= 2
        && top >= HEAP_START
        && top + SLOT_SIZE * slots <= DIRECTORY_END
        && field(page, HEAP_COUNT) >= COMPACT_BIT
        && record_count(page) + 2 <= heap_count(page)
}

/// Whether infimum and supremum are as they must be.
pub(crate) fn has_ends(page: &Page) -> bool
    ensures { IsTrue result ↔ HasEnds page.now }
{
    let bytes = page.bytes();
    &bytes[INFIMUM..INFIMUM + 8] == b"infimum\0".as_slice()
        && &bytes[SUPREMUM..SUPREMUM + 8] == b"supremum".as_slice()
        && heap_number(page, INFIMUM) == 0
        && heap_number(page, SUPREMUM) == 1
        && status(page, INFIMUM) == STATUS_INFIMUM
        && status(page, SUPREMUM) == STATUS_SUPREMUM
        && next_field(page, SUPREMUM) == 0
}

/// Whether the fields of a record of the heap may begin at this byte.
pub(crate) fn is_origin(page: &Page, origin: usize) -> bool
    ensures { IsTrue result ↔ IsOrigin page.now origin }
{
    (HEAP_START + RECORD_HEADER..=heap_top(page)).contains(&origin)
}
