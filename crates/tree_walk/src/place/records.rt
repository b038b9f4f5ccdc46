//! The records of a page in hand.

ghost use Rattle.std.specs.Prelude.{◌≡◌, ◌-◌, ◌<◌, ◌≤◌, ◌↔◌, IsTrue, IfSome, length, slice_index};
ghost use Rattle.index_page.specs.Header.{records_of, record_count, slot_at, slot_count};
ghost use Rattle.index_page.specs.Page.{HasHeader};
ghost use Rattle.tree_walk.specs.Records.{IsRecord, IsHeld, PageFacts, HasPassed};

use column_values::FieldList;
use compact_record::{Located, next_origin};
use index_page::layout::{FIRST_ORIGIN, INFIMUM, SLOT_COUNT, SLOT_SIZE, SUPREMUM};
use page_source::{PAGE_SIZE, Page, read_be};

/// Where the first directory slot stands; the others go down from it.
const FIRST_SLOT: usize = 16374;

/// The most records that an owner owns (PAGE_DIR_SLOT_MAX_N_OWNED).
const GREATEST_GROUP: usize = 8;

/// Reads the record at this origin, and answers whether there is one.
pub(crate) fn read_record(
    located: &mut Located,
    page: &Page,
    origin: usize,
    fields: &FieldList,
) -> bool
    requires room { length fields.now.fields ≤ located.old.members }
    ensures exact { IsTrue result ↔ IsRecord page.now fields.now origin }
    ensures held { IsTrue result → IsHeld page.now fields.now origin located.new }
    ensures members { located.new.members ≡ located.old.members }
{
    if origin < FIRST_ORIGIN || origin > PAGE_SIZE {
        return false;
    }
    located.again(page, origin, fields) && located.end() <= PAGE_SIZE
}

/// The first record of a page.
#[tactic(auto, using(crate::proofs::Records::first_record))]
pub(crate) fn first_record(page: &Page) -> usize
    requires { 0 < record_count page.now }
    ensures { result ≡ slice_index (records_of page.now) 0 }
{
    next_origin(page, INFIMUM)
}

/// The origin that the last directory slot but one names: of the owner before the last group.
fn last_owner(page: &Page) -> usize
    requires { HasHeader page.now }
    ensures { result ≡ slot_at page.now (slot_count page.now - 2) }
{
    let slot = read_be::<2>(page, SLOT_COUNT) as usize - 2;
    read_be::<2>(page, FIRST_SLOT - SLOT_SIZE * slot) as usize
}

/// The last record of the chain, where it is found from the last slot but one on; the infimum where there is no record.
#[tactic(auto, using(crate::proofs::LastRecord::passed_header))]
fn last_of_group(page: &Page, fields: &FieldList) -> Option<usize>
    requires facts { PageFacts page.now fields.now }
    ensures { IfSome result (λ last. HasPassed page.now (record_count page.now) last) }
{
    let mut at = last_owner(page);
    for _ in 0..GREATEST_GROUP {
        let next = next_origin(page, at);
        if next == SUPREMUM {
            return Some(at);
        }
        at = next;
    }
    None
}

/// The last record of a page with so many of them: from the last directory slot but one on, or, if it isn't met there,
/// from the first record on.
#[tactic(auto, using(crate::proofs::Records::first_record, crate::proofs::Records::record_at))]
pub(crate) fn last_record(page: &Page, fields: &FieldList, count: usize) -> usize
    requires some { 0 < count }
    requires count { count ≡ record_count page.now }
    requires facts { PageFacts page.now fields.now }
    ensures { result ≡ slice_index (records_of page.now) (count - 1) }
{
    if let Some(last) = last_of_group(page, fields) {
        return last;
    }
    let mut at = next_origin(page, INFIMUM);
    for k in 1..count {
        at = next_origin(page, at);
    }
    at
}
