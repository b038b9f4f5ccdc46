//! The heap numbers of the chain's records and of the free ones, and the free list.

ghost use Rattle.std.specs.Prelude.{◌≡◌, ◌≤◌, ◌↔◌, IsTrue, IsNone, true};
ghost use Rattle.page_source.specs.Verdict.{Check, Then};
ghost use Rattle.page_source.specs.declared.rule.Rule.{Rule};
ghost use Rattle.compact_record.specs.Reading.{IsHeapOrigin};
ghost use Rattle.index_page.specs.Header.{records_from, records_of};
ghost use Rattle.index_page.specs.Page.{HasHeader, AreOrigins, IsChain, IsCut, HasHeapNumbers, IsFreeWalk};
ghost use Rattle.index_page.specs.PageChecks.{HasFreeList};
ghost use Rattle.index_page.specs.Marks.{bits_of, PassInTurn, seen_after, IsNew, with_number, chain_numbers};

use crate::chain::has_chain;
use crate::directory::{Groups, are_whole, grow};
use crate::header::{first_free, free_count, heap_count, is_origin, record_count};
use crate::layout::{INFIMUM, SUPREMUM};
use crate::marks::Marks;
use compact_record::{heap_number, next_field, next_origin};
use page_source::{Page, Rule};

/// Marks the record's heap number, where it is one that a record may have and wasn't marked before.
fn mark_number(numbers: &mut Marks, page: &Page, origin: usize) -> bool
    requires { IsHeapOrigin origin }
    ensures exact { IsTrue result ↔ IsNew page.now (bits_of numbers.old) origin }
    ensures marks { IsTrue result → bits_of numbers.new ≡ with_number page.now (bits_of numbers.old) origin }
{
    let number = usize::from(heap_number(page, origin));
    let new = number >= 2 && number < heap_count(page) && !numbers.has(number);
    numbers.set(number);
    new
}

/// Marks the heap numbers of `count` records from `first` on, where each of them is one that a
/// record may have and wasn't marked before.
fn mark_numbers(numbers: &mut Marks, page: &Page, first: usize, count: usize) -> bool
    requires header { HasHeader page.now }
    requires origins { AreOrigins page.now first count }
    ensures exact { IsTrue result ↔ PassInTurn (IsNew page.now) (with_number page.now)
        (bits_of numbers.old) (records_from page.now first count) }
    ensures marks { IsTrue result → bits_of numbers.new
        ≡ seen_after (with_number page.now) (bits_of numbers.old) (records_from page.now first count) }
{
    let mut origin = first;
    for _ in 0..count {
        if !mark_number(numbers, page, origin) {
            return false;
        }
        origin = next_origin(page, origin);
    }
    true
}

/// Whether each heap number of the chain is one that a record may have, and comes once.
fn has_heap_numbers(numbers: &mut Marks, page: &Page) -> bool
    requires header { HasHeader page.now }
    requires chain { IsChain page.now (records_of page.now) }
    ensures exact { IsTrue result ↔ HasHeapNumbers page.now (records_of page.now) }
    ensures marks { IsTrue result → bits_of numbers.new ≡ chain_numbers page.now }
{
    numbers.clear();
    mark_numbers(
        numbers,
        page,
        next_origin(page, INFIMUM),
        record_count(page),
    )
}

/// Whether the records lead from the infimum to the supremum, as many as the header says, and their heap numbers are
/// found to come once, and the slots to cut them into groups, in one walk, with a mark for each of them. They may do so
/// after false, too.
fn has_numbered_chain(numbers: &mut Marks, page: &Page) -> bool
    requires header { HasHeader page.now }
    ensures chain { IsTrue result → IsChain page.now (records_of page.now) }
    ensures had { IsTrue result → HasHeapNumbers page.now (records_of page.now) }
    ensures cut { IsTrue result → IsCut page.now (records_of page.now) }
    ensures marks { IsTrue result → bits_of numbers.new ≡ chain_numbers page.now }
{
    numbers.clear();
    let none = Groups { slot: 0, size: 0 };
    let Some(mut groups) = grow(page, none, INFIMUM) else {
        return false;
    };
    let mut origin = next_origin(page, INFIMUM);
    for i in 0..record_count(page) {
        if !is_origin(page, origin) {
            return false;
        }
        if !mark_number(numbers, page, origin) {
            return false;
        }
        let Some(more) = grow(page, groups, origin) else {
            return false;
        };
        groups = more;
        origin = next_origin(page, origin);
    }
    if !are_whole(page, groups) {
        return false;
    }
    origin == SUPREMUM
}

/// The rule that the record chain or its heap numbers break first, and a mark for each of these where they break none.
/// `cut` tells whether the slots were found to cut the chain into groups.
pub(crate) fn chain_fault(numbers: &mut Marks, page: &Page, cut: &mut bool) -> Option<Rule>
    requires header { HasHeader page.now }
    ensures exact { Then (Check Rule.RecordChain (IsChain page.now (records_of page.now)))
        (Check Rule.HeapNumbers (HasHeapNumbers page.now (records_of page.now))) result }
    ensures marks { IsNone result → bits_of numbers.new ≡ chain_numbers page.now }
    ensures cut { IsNone result → cut.new ≡ true → IsCut page.now (records_of page.now) }
{
    *cut = has_numbered_chain(numbers, page);
    if *cut {
        return None;
    }
    if !has_chain(page) {
        return Some(Rule::RecordChain);
    }
    if !has_heap_numbers(numbers, page) {
        return Some(Rule::HeapNumbers);
    }
    None
}

/// Whether the free list has the records of the heap that the chain hasn't. That its origins differ
/// needs no test: records with different heap numbers are different ones.
pub(crate) fn has_free_list(numbers: &mut Marks, page: &Page) -> bool
    requires header { HasHeader page.now }
    requires chain { IsChain page.now (records_of page.now) }
    requires had { HasHeapNumbers page.now (records_of page.now) }
    requires marks { bits_of numbers.old ≡ chain_numbers page.now }
    ensures { IsTrue result ↔ HasFreeList page.now }
{
    has_free_walk(page) && mark_numbers(numbers, page, first_free(page), free_count(page))
}

/// Whether the free records may stand where they do, and the last of them ends the list.
#[tactic(auto, using(crate::proofs::HeapNumbers::free_steps))]
fn has_free_walk(page: &Page) -> bool
    requires { HasHeader page.now }
    ensures { IsTrue result ↔ IsFreeWalk page.now }
{
    let mut origin = first_free(page);
    let mut ended = origin == 0;
    for _ in 0..free_count(page) {
        if !is_origin(page, origin) {
            return false;
        }
        ended = next_field(page, origin) == 0;
        origin = next_origin(page, origin);
    }
    ended
}
