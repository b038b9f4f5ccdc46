//! The way along the chain of a page that was checked, and the minimum mark.

ghost use Rattle.std.specs.Prelude.{◌≡◌, ◌↔◌, IsTrue, false};
ghost use Rattle.compact_record.specs.Header.{HasHeaderBytes};
ghost use Rattle.compact_record.specs.Reading.{IsHeapOrigin};
ghost use Rattle.index_page.specs.Header.{records_of, next_of};
ghost use Rattle.index_page.specs.Page.{HasHeader, IsChain, HasMinimumMark, HasMarkAt, IsFirst};

use crate::fault::is_lowest_first;
use crate::header::record_count;
use crate::layout::{INFIMUM, SUPREMUM};
use compact_record::{minimum, next_field, next_origin};
use page_source::{PAGE_SIZE, Page};

/// The origin of the record behind this one, a byte of the page; none at the end of the chain: where the next field is
/// 0, or leads to the supremum.
pub fn next_record(page: &Page, origin: usize) -> Option<usize>
    requires { HasHeaderBytes origin }
    ensures { result ≡ next_of page.now origin }
{
    let next = usize::from(next_field(page, origin));
    let target = (origin + next) % PAGE_SIZE;
    if next == 0 || target == SUPREMUM {
        None
    } else {
        Some(target)
    }
}

/// Whether the minimum mark of a page that was checked lacks, or is where it mustn't be: the first record of the
/// leftmost page of a level above the leaves has it, and no other record.
pub fn mark_fault(page: &Page, leaf: bool, leftmost: bool) -> bool
    requires header { HasHeader page.now }
    requires chain { IsChain page.now (records_of page.now) }
    ensures { (result ≡ false) ↔ HasMinimumMark page.now leaf leftmost (records_of page.now) }
{
    let mut origin = next_origin(page, INFIMUM);
    for i in 0..record_count(page) {
        if !has_mark_at(page, leaf, leftmost, i, origin) {
            return true;
        }
        origin = next_origin(page, origin);
    }
    false
}

/// Whether record `i` of the chain has the minimum mark exactly where it must.
fn has_mark_at(page: &Page, leaf: bool, leftmost: bool, i: usize, origin: usize) -> bool
    requires { IsHeapOrigin origin }
    ensures { IsTrue result ↔ HasMarkAt page.now leaf leftmost i origin }
{
    let marked = minimum(page, origin);
    let first = is_first(leaf, leftmost, i);
    marked == first
}

/// Whether record `i` of the chain must have the mark.
fn is_first(leaf: bool, leftmost: bool, i: usize) -> bool
    ensures { IsTrue result ↔ IsFirst leaf leftmost i }
{
    i == 0 && is_lowest_first(leaf, leftmost)
}
