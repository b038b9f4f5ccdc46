//! The room of the records: each lies between the supremum and the heap top, apart from the others.

ghost use Rattle.std.specs.Prelude.{◌≡◌, ◌≤◌, ◌<◌, ◌↔◌, IsTrue, All, length};
ghost use Rattle.compact_record.specs.Reading.{IsHeapOrigin, IsSpelled};
ghost use Rattle.index_page.specs.Header.{records_from, records_of, heap_of};
ghost use Rattle.index_page.specs.Page.{HasHeader, AreOrigins, IsChain, AreSpelled, LieApart};
ghost use Rattle.index_page.specs.PageChecks.{HasFreeList};
ghost use Rattle.index_page.specs.Marks.{bits_of, PassInTurn, seen_after, LiesFree, with_record};

use crate::header::{first_free, free_count, heap_top, record_count};
use crate::layout::INFIMUM;
use crate::marks::Marks;
use column_values::FieldList;
use compact_record::layout::HEAP_START;
use compact_record::{Located, next_origin};
use page_source::Page;

/// Marks the record's bytes, where none of them was marked before.
fn mark_record(
    bytes: &mut Marks,
    reader: &mut Located,
    page: &Page,
    fields: &FieldList,
    origin: usize,
) -> bool
    requires header { HasHeader page.now }
    requires origin { IsHeapOrigin origin }
    requires spelled { IsSpelled page.now origin fields.now }
    requires room { length fields.now.fields ≤ reader.old.members }
    ensures exact { IsTrue result ↔ LiesFree page.now fields.now (bits_of bytes.old) origin }
    ensures marks { IsTrue result → bits_of bytes.new ≡ with_record page.now fields.now (bits_of bytes.old) origin }
    ensures members { reader.new.members ≡ reader.old.members }
{
    if !reader.again(page, origin, fields) {
        return false;
    }
    reader.start() >= HEAP_START
        && reader.end() <= heap_top(page)
        && bytes.set_span(reader.start(), reader.end())
}

/// Marks the bytes of `count` records from `first` on, where none of them was marked before.
pub(crate) fn mark_records(
    bytes: &mut Marks,
    reader: &mut Located,
    page: &Page,
    fields: &FieldList,
    first: usize,
    count: usize,
) -> bool
    requires header { HasHeader page.now }
    requires origins { AreOrigins page.now first count }
    requires spelled { AreSpelled page.now fields.now (records_from page.now first count) }
    requires room { length fields.now.fields ≤ reader.old.members }
    ensures exact { IsTrue result ↔ PassInTurn (LiesFree page.now fields.now) (with_record page.now fields.now)
        (bits_of bytes.old) (records_from page.now first count) }
    ensures marks { IsTrue result → bits_of bytes.new
        ≡ seen_after (with_record page.now fields.now) (bits_of bytes.old) (records_from page.now first count) }
    ensures members { reader.new.members ≡ reader.old.members }
{
    let mut origin = first;
    for _ in 0..count {
        if !mark_record(bytes, reader, page, fields, origin) {
            return false;
        }
        origin = next_origin(page, origin);
    }
    true
}

/// Whether the records of the heap lie apart.
pub(crate) fn have_room(
    bytes: &mut Marks,
    reader: &mut Located,
    page: &Page,
    fields: &FieldList,
) -> bool
    requires header { HasHeader page.now }
    requires chain { IsChain page.now (records_of page.now) }
    requires free { HasFreeList page.now }
    requires spelled { AreSpelled page.now fields.now (heap_of page.now) }
    requires room { length fields.now.fields ≤ reader.old.members }
    ensures exact { IsTrue result ↔ LieApart page.now fields.now (heap_of page.now) }
    ensures members { reader.new.members ≡ reader.old.members }
{
    bytes.clear();
    mark_records(
        bytes,
        reader,
        page,
        fields,
        next_origin(page, INFIMUM),
        record_count(page),
    ) && mark_records(
        bytes,
        reader,
        page,
        fields,
        first_free(page),
        free_count(page),
    )
}
