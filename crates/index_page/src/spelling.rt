//! What each record of the page has to be: its kind, and how it is spelled.

ghost use Rattle.std.specs.Prelude.{◌≡◌, ◌≤◌, ◌↔◌, IsTrue, All, length};
ghost use Rattle.compact_record.specs.Reading.{IsHeapOrigin};
ghost use Rattle.index_page.specs.Header.{records_from, records_of, heap_of};
ghost use Rattle.index_page.specs.Page.{HasHeader, AreOrigins, IsChain, HasKind, AreSpelled};
ghost use Rattle.index_page.specs.PageChecks.{HasFreeList};

use crate::header::{first_free, free_count, record_count};
use crate::layout::INFIMUM;
use column_values::FieldList;
use compact_record::{Located, next_origin, status};
use page_source::Page;

/// Whether the record is a row, of status 0, or above the leaves a node pointer, of status 1.
pub(crate) fn has_kind(page: &Page, leaf: bool, origin: usize) -> bool
    requires { IsHeapOrigin origin }
    ensures { IsTrue result ↔ HasKind page.now leaf origin }
{
    let kind = if leaf { 0 } else { 1 };
    status(page, origin) == kind
}

/// Whether the records of the chain are those of a leaf, or node pointers.
pub(crate) fn have_kind(page: &Page, leaf: bool) -> bool
    requires header { HasHeader page.now }
    requires chain { IsChain page.now (records_of page.now) }
    ensures { IsTrue result ↔ All (HasKind page.now leaf) (records_of page.now) }
{
    let mut origin = next_origin(page, INFIMUM);
    for _ in 0..record_count(page) {
        if !has_kind(page, leaf, origin) {
            return false;
        }
        origin = next_origin(page, origin);
    }
    true
}

/// Whether `count` records from `first` on are spelled as they must be.
pub(crate) fn are_spelled(
    reader: &mut Located,
    page: &Page,
    fields: &FieldList,
    first: usize,
    count: usize,
) -> bool
    requires header { HasHeader page.now }
    requires origins { AreOrigins page.now first count }
    requires room { length fields.now.fields ≤ reader.old.members }
    ensures exact { IsTrue result ↔ AreSpelled page.now fields.now (records_from page.now first count) }
    ensures members { reader.new.members ≡ reader.old.members }
{
    let mut origin = first;
    for _ in 0..count {
        if !reader.again(page, origin, fields) {
            return false;
        }
        origin = next_origin(page, origin);
    }
    true
}

/// Whether the records of the heap are spelled as they must be.
pub(crate) fn heap_is_spelled(reader: &mut Located, page: &Page, fields: &FieldList) -> bool
    requires header { HasHeader page.now }
    requires chain { IsChain page.now (records_of page.now) }
    requires free { HasFreeList page.now }
    requires room { length fields.now.fields ≤ reader.old.members }
    ensures exact { IsTrue result ↔ AreSpelled page.now fields.now (heap_of page.now) }
    ensures members { reader.new.members ≡ reader.old.members }
{
    are_spelled(
        reader,
        page,
        fields,
        next_origin(page, INFIMUM),
        record_count(page),
    ) && are_spelled(reader, page, fields, first_free(page), free_count(page))
}
