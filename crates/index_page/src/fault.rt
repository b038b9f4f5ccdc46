//! The first broken rule of an index page.

ghost use Rattle.std.specs.Prelude.{◌≡◌, ◌≤◌, ◌↔◌, IsTrue, IsNone, IfOk, length};
ghost use Rattle.index_page.specs.Header.{records_of};
ghost use Rattle.index_page.specs.Page.{IsIndexPage, MayBeEmpty, is_lowest_first};
ghost use Rattle.index_page.specs.PageChecks.{PageChecks};

use crate::directory::has_directory;
use crate::header::{has_ends, has_header, record_count};
use crate::heap_numbers::{chain_fault, has_free_list};
use crate::keys::keys_rise;
use crate::marks::Marks;
use crate::pass::pass;
use crate::room::have_room;
use crate::spelling::{have_kind, heap_is_spelled};
use column_values::FieldList;
use compact_record::Located;
use page_source::{NoMemory, Page, Rule};
use std::alloc::Global;
use std::marker::Model;

/// What the check of a page needs: a mark for each heap number, one for each byte, and the places of
/// two records. It is seen as the number of fields that it has room for.
#[derive(Drop)]
pub struct Scratch {
    numbers: Marks,
    bytes: Marks,
    low: Located,
    high: Located,
}

impl Model for Scratch {
    ghost use Rattle.std.specs.Prelude.{◌≡◌, ℕ};

    ghost Value = { ℕ };

    ghost view = { λ s. s.low.members };

    ghost invariant = { λ s. s.high.members ≡ s.low.members };
}

impl Scratch {
    /// Room for the check of pages whose records have at most so many fields.
    pub fn new(alloc: Global, members: u32) -> Result<Scratch, NoMemory>
        ensures { IfOk result (λ scratch. scratch ≡ members) }
    {
        Ok(Scratch {
            numbers: Marks::new(alloc)?,
            bytes: Marks::new(alloc)?,
            low: Located::with_room(alloc, members)?,
            high: Located::with_room(alloc, members)?,
        })
    }
}

/// The first broken rule of an index page (page0page), none where it keeps all. Their order: its header, its ends, its
/// record chain, its heap numbers, its free list, its directory, the kind of its records, their spelling, their room,
/// that it has a record, and their keys. `leaf`, `root` and `leftmost` say where in its tree the page stands. Nothing
/// is said of what the scratch holds afterwards.
pub fn page_fault(
    scratch: &mut Scratch,
    page: &Page,
    fields: &FieldList,
    leaf: bool,
    root: bool,
    leftmost: bool,
) -> Option<Rule>
    requires few { fields.now.keys ≤ length fields.now.fields }
    requires room { length fields.now.fields ≤ scratch.old }
    ensures exact { PageChecks page.now fields.now leaf root leftmost result }
    ensures sound { IsNone result ↔ IsIndexPage page.now fields.now leaf root leftmost (records_of page.now) }
    ensures members { scratch.new ≡ scratch.old }
{
    first_broken(scratch, page, fields, leaf, root, leftmost)
}

/// The checks in their order.
#[tactic(auto, unfolding(crate::specs::PageChecks::PageChecks))]
fn first_broken(
    scratch: &mut Scratch,
    page: &Page,
    fields: &FieldList,
    leaf: bool,
    root: bool,
    leftmost: bool,
) -> Option<Rule>
    requires few { fields.now.keys ≤ length fields.now.fields }
    requires room { length fields.now.fields ≤ scratch.old }
    ensures exact { PageChecks page.now fields.now leaf root leftmost result }
    ensures members { scratch.new ≡ scratch.old }
{
    if !has_header(page) {
        return Some(Rule::PageHeader);
    }
    if !has_ends(page) {
        return Some(Rule::PageEnds);
    }
    let mut cut = false;
    if let Some(rule) = chain_fault(&mut scratch.numbers, page, &mut cut) {
        return Some(rule);
    }
    if !has_free_list(&mut scratch.numbers, page) {
        return Some(Rule::FreeList);
    }
    if !has_directory(page, cut) {
        return Some(Rule::Directory);
    }
    let lowest = is_lowest_first(leaf, leftmost);
    if may_be_empty(page, leaf, root)
        && pass(
            &mut scratch.bytes,
            &mut scratch.low,
            &mut scratch.high,
            page,
            fields,
            leaf,
            lowest,
        )
    {
        return None;
    }
    if !have_kind(page, leaf) {
        return Some(Rule::RecordKind);
    }
    if !heap_is_spelled(&mut scratch.low, page, fields) {
        return Some(Rule::RecordSpelling);
    }
    if !have_room(&mut scratch.bytes, &mut scratch.low, page, fields) {
        return Some(Rule::RecordRoom);
    }
    if !may_be_empty(page, leaf, root) {
        return Some(Rule::EmptyPage);
    }
    if !keys_rise(&mut scratch.low, &mut scratch.high, page, fields, lowest) {
        return Some(Rule::KeyOrder);
    }
    None
}

/// Whether the first key of the page counts as below every key.
pub(crate) fn is_lowest_first(leaf: bool, leftmost: bool) -> bool
    ensures { result ≡ is_lowest_first leaf leftmost }
{
    leftmost && !leaf
}

/// Whether the page has a record, or is the root of a tree without rows.
#[tactic(auto, using(crate::proofs::RecordWalk::count_of_walk))]
fn may_be_empty(page: &Page, leaf: bool, root: bool) -> bool
    ensures { IsTrue result ↔ MayBeEmpty leaf root (records_of page.now) }
{
    record_count(page) != 0 || leaf && root
}
