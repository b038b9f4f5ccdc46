//! One pass over the records of a page that most likely keeps the rules of their kind, their spelling, their room and
//! their keys.

ghost use Rattle.std.specs.Prelude.{◌≡◌, ◌-◌, ◌<◌, ◌≤◌, IsTrue, All, length};
ghost use Rattle.compact_record.specs.Reading.{IsHeapOrigin, IsSpelled};
ghost use Rattle.compact_record.specs.Keys.{IsWholeReading};
ghost use Rattle.index_page.specs.Header.{records_of, heap_of};
ghost use Rattle.index_page.specs.Page.{HasHeader, IsChain, HasKind, AreSpelled, LieApart, KeysRise, IsRise};
ghost use Rattle.index_page.specs.PageChecks.{HasFreeList};
ghost use Rattle.index_page.specs.Marks.{bits_of, none_seen, PassInTurn, seen_after, LiesFree, with_record};

use crate::header::{first_free, free_count, heap_top, record_count};
use crate::keys::rise;
use crate::layout::INFIMUM;
use crate::marks::Marks;
use crate::room::mark_records;
use crate::spelling::{are_spelled, has_kind};
use column_values::FieldList;
use compact_record::layout::HEAP_START;
use compact_record::{Located, next_origin};
use page_source::Page;

/// Reads the record, and marks its bytes, where it is spelled as it must be, and none of them was marked before.
fn takes_room(
    bytes: &mut Marks,
    reader: &mut Located,
    page: &Page,
    fields: &FieldList,
    origin: usize,
) -> bool
    requires header { HasHeader page.now }
    requires origin { IsHeapOrigin origin }
    requires room { length fields.now.fields ≤ reader.old.members }
    ensures spelled { IsTrue result → IsSpelled page.now origin fields.now }
    ensures read { IsTrue result → IsWholeReading page.now fields.now reader.new }
    ensures stands { IsTrue result → reader.new.origin ≡ origin }
    ensures free { IsTrue result → LiesFree page.now fields.now (bits_of bytes.old) origin }
    ensures marks { IsTrue result → bits_of bytes.new ≡ with_record page.now fields.now (bits_of bytes.old) origin }
    ensures members { reader.new.members ≡ reader.old.members }
{
    if !reader.again(page, origin, fields) {
        return false;
    }
    reader.start() >= HEAP_START
        && reader.end() <= heap_top(page)
        && bytes.set_span(reader.start(), reader.end())
}

/// Whether the key of record `i` of the chain, read by `high`, is above that of the one before it, read by `low`. The
/// first has none before it.
fn rises(
    low: &Located,
    high: &Located,
    page: &Page,
    fields: &FieldList,
    i: usize,
    lowest_first: bool,
) -> bool
    requires few { fields.now.keys ≤ length fields.now.fields }
    requires low { 0 < i → IsWholeReading page.now fields.now low.now }
    requires high { IsWholeReading page.now fields.now high.now }
    ensures { IsTrue result → 0 < i → IsRise page.now fields.now lowest_first (i - 1) low.now.origin high.now.origin }
{
    i == 0 || rise(low, high, page, fields, i - 1, lowest_first)
}

/// Whether record `i` of the chain, at this origin, is of its kind, spelled as it must be, apart from those whose bytes
/// are marked, and above the one before it, which `before` read. It is read by `here`, and its bytes are marked.
#[inline(always)]
fn record_passes(
    bytes: &mut Marks,
    before: &Located,
    here: &mut Located,
    page: &Page,
    fields: &FieldList,
    leaf: bool,
    lowest_first: bool,
    i: usize,
    origin: usize,
) -> bool
    requires header { HasHeader page.now }
    requires origin { IsHeapOrigin origin }
    requires few { fields.now.keys ≤ length fields.now.fields }
    requires room { length fields.now.fields ≤ here.old.members }
    requires before { 0 < i → IsWholeReading page.now fields.now before.now }
    ensures kind { IsTrue result → HasKind page.now leaf origin }
    ensures spelled { IsTrue result → IsSpelled page.now origin fields.now }
    ensures read { IsTrue result → IsWholeReading page.now fields.now here.new }
    ensures stands { IsTrue result → here.new.origin ≡ origin }
    ensures free { IsTrue result → LiesFree page.now fields.now (bits_of bytes.old) origin }
    ensures marks { IsTrue result → bits_of bytes.new ≡ with_record page.now fields.now (bits_of bytes.old) origin }
    ensures rise { IsTrue result → 0 < i
        → IsRise page.now fields.now lowest_first (i - 1) before.now.origin here.new.origin }
    ensures members { here.new.members ≡ here.old.members }
{
    if !has_kind(page, leaf, origin) {
        return false;
    }
    if !takes_room(bytes, here, page, fields, origin) {
        return false;
    }
    rises(before, here, page, fields, i, lowest_first)
}

/// Whether the records of the chain are found to be of their kind, to be spelled, to lie apart and to rise, with a mark
/// for each of their bytes. Two are read in turn, so that each is compared with the one before it.
fn chain_passes(
    bytes: &mut Marks,
    low: &mut Located,
    high: &mut Located,
    page: &Page,
    fields: &FieldList,
    leaf: bool,
    lowest_first: bool,
) -> bool
    requires header { HasHeader page.now }
    requires chain { IsChain page.now (records_of page.now) }
    requires few { fields.now.keys ≤ length fields.now.fields }
    requires room { length fields.now.fields ≤ low.old.members }
    requires same { high.old.members ≡ low.old.members }
    ensures kinds { IsTrue result → All (HasKind page.now leaf) (records_of page.now) }
    ensures spelled { IsTrue result → AreSpelled page.now fields.now (records_of page.now) }
    ensures free { IsTrue result → PassInTurn (LiesFree page.now fields.now) (with_record page.now fields.now)
        none_seen (records_of page.now) }
    ensures marks { IsTrue result → bits_of bytes.new
        ≡ seen_after (with_record page.now fields.now) none_seen (records_of page.now) }
    ensures rise { IsTrue result → KeysRise page.now fields.now lowest_first (records_of page.now) }
    ensures low_members { low.new.members ≡ low.old.members }
    ensures high_members { high.new.members ≡ high.old.members }
{
    bytes.clear();
    let count = record_count(page);
    let mut origin = next_origin(page, INFIMUM);
    for pair in 0..count / 2 {
        let i = 2 * pair;
        if !record_passes(
            bytes,
            low,
            high,
            page,
            fields,
            leaf,
            lowest_first,
            i,
            origin,
        ) {
            return false;
        }
        origin = next_origin(page, origin);
        if !record_passes(
            bytes,
            high,
            low,
            page,
            fields,
            leaf,
            lowest_first,
            i + 1,
            origin,
        ) {
            return false;
        }
        origin = next_origin(page, origin);
    }
    if count % 2 == 0 {
        return true;
    }
    record_passes(
        bytes,
        low,
        high,
        page,
        fields,
        leaf,
        lowest_first,
        count - 1,
        origin,
    )
}

/// Whether one pass finds that the records of the heap are spelled and lie apart, and that those of the chain are of
/// their kind and rise. They may do so after false, too.
pub(crate) fn pass(
    bytes: &mut Marks,
    low: &mut Located,
    high: &mut Located,
    page: &Page,
    fields: &FieldList,
    leaf: bool,
    lowest_first: bool,
) -> bool
    requires header { HasHeader page.now }
    requires chain { IsChain page.now (records_of page.now) }
    requires free { HasFreeList page.now }
    requires few { fields.now.keys ≤ length fields.now.fields }
    requires room { length fields.now.fields ≤ low.old.members }
    requires same { high.old.members ≡ low.old.members }
    ensures kinds { IsTrue result → All (HasKind page.now leaf) (records_of page.now) }
    ensures spelled { IsTrue result → AreSpelled page.now fields.now (heap_of page.now) }
    ensures apart { IsTrue result → LieApart page.now fields.now (heap_of page.now) }
    ensures rise { IsTrue result → KeysRise page.now fields.now lowest_first (records_of page.now) }
    ensures low_members { low.new.members ≡ low.old.members }
    ensures high_members { high.new.members ≡ high.old.members }
{
    let (first, count) = (first_free(page), free_count(page));
    if !chain_passes(bytes, low, high, page, fields, leaf, lowest_first) {
        return false;
    }
    are_spelled(low, page, fields, first, count)
        && mark_records(bytes, low, page, fields, first, count)
}
