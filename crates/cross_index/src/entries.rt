//! The entries of an index beside the rows in the order of their keys.

ghost use Rattle.std.specs.Prelude.{◌≡◌, ◌+◌, ◌≤◌, ◌<◌, All, IfOk, IsTrue, length, slice_index_or, false};
ghost use Rattle.page_source.specs.Calls.{OfFile};
ghost use Rattle.compact_record.specs.Reading.{IsHeapOrigin, IsSpelled, key_kinds, record_end};
ghost use Rattle.compact_record.specs.Keys.{key_at};
ghost use Rattle.schema_text.specs.IndexFields.{leaf_fields};
ghost use Rattle.cross_index.specs.calls.Kept.{LiesIn, kept_keys};
ghost use Rattle.cross_index.specs.calls.Order.{IsOrder};
ghost use Rattle.cross_index.specs.Stops.{CrossesOver};
ghost use Rattle.cross_index.specs.calls.Compare.{IsReadKey, Meets, EndsAt, CanCompare, Compares, NamesHere};

use crate::ahead::Ahead;
use crate::crossed::CrossStop;
use crate::order::{Keys, compare_record};
use column_values::FieldList;
use compact_record::{Located, Place};
use page_source::{PAGE_SIZE, Page, PageSource, Rule, Steps};
use schema_text::Schema;
use std::cmp::Ordering;
use std::sync::ledger::Ledger;
use table_check::LiveRows;
use tree_walk::laws::rows_can_be_read;

/// The index that is compared, and the rows in the order of their keys in it.
#[derive(Clone, Copy)]
pub(crate) struct Asked<'a> {
    pub(crate) index: u32,
    pub(crate) keys: Keys<'a>,
    pub(crate) order: &'a [usize],
}

/// Reads the record at an origin of a page, and answers whether it is spelled as it must be and ends on the page.
fn read_entry(located: &mut Located, page: &Page, origin: usize, fields: &FieldList) -> bool
    requires origin { IsHeapOrigin origin }
    requires few { fields.now.keys ≤ length fields.now.fields }
    requires room { length fields.now.fields ≤ located.old.members }
    ensures read { IsTrue result → IsReadKey page.now origin fields.now located.new }
    ensures readable { IsSpelled page.now origin fields.now → record_end page.now origin fields.now ≤ 16384
        → IsTrue result }
    ensures members { located.new.members ≡ located.old.members }
{
    located.again(page, origin, fields) && located.end() <= PAGE_SIZE
}

/// The number of a row, from 1 on.
fn row_number(order: &[usize], next: usize) -> u64
    requires within { next < length order.now }
    requires below { All (λ k. k < length order.now) order.now }
    ensures { result ≡ slice_index_or order.now next 0 + 1 }
{
    order[next] as u64 + 1
}

/// Whether the entry with the key at these places is that of the row that comes next.
fn meet(
    asked: &Asked,
    next: usize,
    page: &Page,
    number: u32,
    places: &[Place],
) -> Result<(), CrossStop>
    requires few { asked.now.keys.fields.now.keys ≤ length asked.now.keys.fields.now.fields }
    requires each { length asked.now.keys.slots.now ≡ asked.now.keys.fields.now.keys }
    requires long { asked.now.keys.fields.now.keys ≤ length places.now }
    requires lie { All (LiesIn 16384) places.now }
    requires order { IsOrder (key_kinds asked.now.keys.fields.now)
        (kept_keys asked.now.keys.cells.now asked.now.keys.width asked.now.keys.slots.now (length asked.now.order.now))
        asked.now.order.now }
    ensures { Meets (key_kinds asked.now.keys.fields.now)
        (kept_keys asked.now.keys.cells.now asked.now.keys.width asked.now.keys.slots.now (length asked.now.order.now))
        asked.now.order.now next (key_at page.now asked.now.keys.fields.now places.now) asked.now.index number result }
{
    let index = asked.index;
    if next >= asked.order.len() {
        return Err(CrossStop::Extra {
            index,
            page: number,
        });
    }
    match compare_record(&asked.keys, page, places, asked.order[next]) {
        Ordering::Less => Err(CrossStop::Extra {
            index,
            page: number,
        }),
        Ordering::Greater => Err(CrossStop::Missing {
            index,
            row: row_number(asked.order, next),
        }),
        Ordering::Equal => Ok(()),
    }
}

/// Whether no row is left after the last entry.
fn end(asked: &Asked, next: usize) -> Result<u64, CrossStop>
    requires below { All (λ k. k < length asked.now.order.now) asked.now.order.now }
    ensures { EndsAt asked.now.order.now next asked.now.index result }
{
    if next < asked.order.len() {
        return Err(CrossStop::Missing {
            index: asked.index,
            row: row_number(asked.order, next),
        });
    }
    Ok(next as u64)
}

/// Compares the entries of an index with the rows, and answers how many there are. Over a file that changed `Broken`
/// names the leaf in hand, if the walk breaks off there or an entry isn't spelled as it must be (rule 40).
pub(crate) fn compare_entries<S: PageSource, L: Ledger>(
    source: &mut S,
    schema: &Schema,
    asked: &Asked,
    ahead: &mut Ahead,
    entries: &mut LiveRows,
    located: &mut Located,
    steps: &mut Steps<L>,
) -> Result<u64, CrossStop>
    requires list { asked.now.keys.fields.now ≡ leaf_fields schema.now asked.now.index }
    requires few { asked.now.keys.fields.now.keys ≤ length asked.now.keys.fields.now.fields }
    requires each { length asked.now.keys.slots.now ≡ asked.now.keys.fields.now.keys }
    requires room { length asked.now.keys.fields.now.fields ≤ located.old.members }
    requires order { IsOrder (key_kinds asked.now.keys.fields.now)
        (kept_keys asked.now.keys.cells.now asked.now.keys.width asked.now.keys.slots.now (length asked.now.order.now))
        asked.now.order.now }
    requires goes_on { entries.old.ended ≡ false }
    requires told { OfFile S.PageSource source.old (λ file.
        CanCompare file schema.now asked.now.index entries.old
        (kept_keys asked.now.keys.cells.now asked.now.keys.width asked.now.keys.slots.now
        (length asked.now.order.now))) }
    ensures exact { OfFile S.PageSource source.old (λ file. Compares file schema.now asked.now.index result) }
    ensures named { NamesHere asked.now.index (length asked.now.order.now) entries.new result }
    ensures cost { steps.new ≤ steps.old + entries.old.leaf.may_fetch }
    ensures over { CrossesOver S.PageSource source.old source.new steps.old steps.new result }
{
    rows_can_be_read();
    let mut next = 0;
    while let Some(origin) = entries.next(source, steps)? {
        let (page, number) = (entries.page(), entries.number());
        if !read_entry(located, page, origin, asked.keys.fields) {
            return Err(CrossStop::Broken(Rule::RecordSpelling.at(number)));
        }
        ahead.read(&asked.keys, asked.order, next);
        meet(asked, next, page, number, located.places())?;
        next += 1;
    }
    end(asked, next)
}
