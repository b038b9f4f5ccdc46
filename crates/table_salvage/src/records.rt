//! The list of a leaf in which the records of a kind are found.

ghost use Rattle.std.specs.Prelude.{◌≡◌, ◌+◌, ◌<◌, ◌≤◌};
ghost use Rattle.page_source.specs.Pages.{num};
ghost use Rattle.compact_record.specs.Header.{HasHeaderBytes};
ghost use Rattle.salvage_model.specs.Records.{list_start, first_place, list_length, is_of};

use compact_record::{deleted, next_origin};
use index_page::layout::{COMPACT_BIT, FIRST_FREE, HEAP_COUNT, INFIMUM, RECORD_COUNT};
use page_source::{Page, read_be};
use salvage_model::RecordKind;

/// The infimum and the supremum, which are in the heap, and neither in the chain's count nor free.
const ENDS: u32 = 2;

/// The list of a leaf in which the records of a kind are found: the origin and the place of its first record, and how
/// many it has. The places count from 0: first the records of the chain, and then the free ones.
#[derive(Clone, Copy)]
pub(crate) struct RecordList {
    pub first: usize,
    pub place: u32,
    pub count: u32,
}

/// A record of a leaf: the number of the page, and the record's place and origin.
#[derive(Clone, Copy)]
pub(crate) struct FoundRecord {
    pub page: u32,
    pub place: u32,
    pub origin: usize,
}

/// A number of the page header.
fn field(page: &Page, at: usize) -> u32
    requires { at + 2 ≤ 16384 }
    ensures value { result ≡ num page.now at 2 }
    ensures within { result < 65536 }
{
    read_be::<2>(page, at) as u32
}

impl RecordList {
    /// The list in which the records of a kind are found.
    pub fn of(page: &Page, kind: RecordKind) -> RecordList
        ensures first { result.first ≡ list_start kind page.now }
        ensures place { result.place ≡ first_place kind page.now }
        ensures count { result.count ≡ list_length kind page.now }
    {
        let records = field(page, RECORD_COUNT);
        match kind {
            RecordKind::Live | RecordKind::Deleted => RecordList {
                first: next_origin(page, INFIMUM),
                place: 0,
                count: records,
            },
            RecordKind::Freed => RecordList {
                first: field(page, FIRST_FREE) as usize,
                place: records,
                count: (field(page, HEAP_COUNT) % COMPACT_BIT as u32).saturating_sub(
                    records + ENDS,
                ),
            },
        }
    }
}

/// Whether a record of that list is of the kind.
pub(crate) fn is_of(kind: RecordKind, page: &Page, origin: usize) -> bool
    requires { HasHeaderBytes origin }
    ensures { result ≡ is_of kind page.now origin }
{
    match kind {
        RecordKind::Live => !deleted(page, origin),
        RecordKind::Deleted => deleted(page, origin),
        RecordKind::Freed => true,
    }
}
