//! The order of the keys along the chain.

ghost use Rattle.std.specs.Prelude.{◌≡◌, ◌≤◌, ◌↔◌, IsTrue, Bool, length};
ghost use Rattle.compact_record.specs.Keys.{IsWholeReading};
ghost use Rattle.index_page.specs.Header.{records_of, heap_of};
ghost use Rattle.index_page.specs.Page.{HasHeader, IsChain, AreSpelled, LieApart, KeysRise, IsRise};

use crate::header::record_count;
use crate::layout::INFIMUM;
use column_values::FieldList;
use compact_record::{Located, next_origin};
use page_source::Page;
use std::cmp::Ordering;
use std::mem;

/// Whether the keys rise strictly along the chain. Where `lowest_first`, the first counts as below
/// every key.
pub(crate) fn keys_rise(
    low: &mut Located,
    high: &mut Located,
    page: &Page,
    fields: &FieldList,
    lowest_first: bool,
) -> bool
    requires header { HasHeader page.now }
    requires chain { IsChain page.now (records_of page.now) }
    requires spelled { AreSpelled page.now fields.now (heap_of page.now) }
    requires apart { LieApart page.now fields.now (heap_of page.now) }
    requires few { fields.now.keys ≤ length fields.now.fields }
    requires room { length fields.now.fields ≤ low.old.members }
    requires same { high.old.members ≡ low.old.members }
    ensures exact { IsTrue result ↔ KeysRise page.now fields.now lowest_first (records_of page.now) }
    ensures low_members { low.new.members ≡ low.old.members }
    ensures high_members { high.new.members ≡ high.old.members }
{
    let records = record_count(page);
    if records == 0 {
        return true;
    }
    let mut origin = next_origin(page, INFIMUM);
    low.again(page, origin, fields);
    for i in 0..records - 1 {
        let next = next_origin(page, origin);
        high.again(page, next, fields);
        if !rise(low, high, page, fields, i, lowest_first) {
            return false;
        }
        origin = next;
        mem::swap(low, high);
    }
    true
}

/// Whether the key of record `i` of the chain, read by `low`, is below that of the one behind it, read
/// by `high`.
pub(crate) fn rise(
    low: &Located,
    high: &Located,
    page: &Page,
    fields: &FieldList,
    i: usize,
    lowest_first: bool,
) -> bool
    requires few { fields.now.keys ≤ length fields.now.fields }
    requires low { IsWholeReading page.now fields.now low.now }
    requires high { IsWholeReading page.now fields.now high.now }
    ensures { IsTrue result ↔ IsRise page.now fields.now lowest_first i low.now.origin high.now.origin }
{
    i == 0 && lowest_first || low.compare_keys(page, fields, high, page, fields) == Ordering::Less
}
