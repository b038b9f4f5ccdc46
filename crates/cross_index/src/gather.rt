//! One pass over the rows: the values of the fields that the secondary indexes take.

ghost use Rattle.std.specs.Prelude.{◌≡◌, ℕ, ◌+◌, ◌<◌, ◌≤◌, ◌++◌, ◌∷◌, ◌^◌, [], All, IfOk, IsTrue, OnOk, length};
ghost use Rattle.std.specs.Prelude.{slice_index_or, false};
ghost use Rattle.page_source.specs.Calls.{OfFile};
ghost use Rattle.column_values.specs.Types.{AreFields};
ghost use Rattle.compact_record.specs.Keys.{LiesBelow};
ghost use Rattle.compact_record.specs.Reading.{IsHeapOrigin, IsSpelled, places_of, record_end};
ghost use Rattle.schema_text.specs.IndexFields.{leaf_fields};
ghost use Rattle.table_check.specs.Trees.{clustered_tree};
ghost use Rattle.table_check.specs.Values.{all_chain_pages};
ghost use Rattle.cross_index.specs.Entries.{whole_cell};
ghost use Rattle.cross_index.specs.Stops.{CrossesOver, OnlyReads};
ghost use Rattle.cross_index.specs.calls.Broken.{BreaksAt, BreaksChain, BreaksRow};
ghost use Rattle.cross_index.specs.calls.Gather.{CanFollowPlace, CanGather, CanGatherAll, IsGathered, pages_of_place};
ghost use Rattle.cross_index.specs.calls.Gather.{pages_of_fields, cells_of, kept_fields};

use crate::crossed::CrossStop;
use crate::kept_values::KeptValues;
use crate::long::{Room, read_long};
use column_values::FieldList;
use compact_record::{Located, Place};
use offpage_chain::laws::{chain_goes_on, has_one_chain};
use page_source::{PAGE_SIZE, Page, PageSource, Rule, Steps};
use schema_text::Schema;
use std::sync::ledger::Ledger;
use table_check::LiveRows;
use tree_walk::laws::rows_can_be_read;

/// Adds the value of a field at a place of a leaf.
fn gather_field<S: PageSource, L: Ledger>(
    source: &mut S,
    page: &Page,
    place: Place,
    cells: &mut KeptValues,
    room: &mut Room,
    steps: &mut Steps<L>,
) -> Result<(), CrossStop>
    requires lies { LiesBelow 16384 place }
    requires follow { OfFile S.PageSource source.old (λ file. CanFollowPlace file page.now place) }
    requires few { OfFile S.PageSource source.old (λ file.
        length (pages_of_place file page.now place) ≤ room.old.left) }
    ensures value { OnOk result (OfFile S.PageSource source.old (λ file.
        cells.new ≡ cells.old ++ whole_cell file page.now place ∷ [])) }
    ensures left { OnOk result (OfFile S.PageSource source.old (λ file.
        room.new.left + length (pages_of_place file page.now place) ≡ room.old.left)) }
    ensures exact { OfFile S.PageSource source.old (λ file. OnlyReads result) }
    ensures broken { BreaksAt BreaksChain result }
    ensures cost { steps.new + room.new.left ≡ steps.old + room.old.left }
    ensures over { CrossesOver S.PageSource source.old source.new steps.old steps.new result }
{
    if place.null {
        cells.push_null()?;
        return Ok(());
    }
    let local = &page.bytes()[place.from..place.until];
    if place.external {
        read_long(source, local, room, steps)?;
        cells.push(&room.value)?;
        return Ok(());
    }
    cells.push(local)?;
    Ok(())
}

/// The place of a field.
fn place_of(places: &[Place], k: usize) -> Place
    requires all { All (LiesBelow 16384) places.now }
    requires inside { k < length places.now }
    ensures same { (d : Place) → result ≡ slice_index_or places.now k d }
    ensures lies { LiesBelow 16384 result }
{
    places[k]
}

/// Adds the values of some fields of a record.
fn gather_row<S: PageSource, L: Ledger>(
    source: &mut S,
    page: &Page,
    places: &[Place],
    kept: &[usize],
    cells: &mut KeptValues,
    room: &mut Room,
    steps: &mut Steps<L>,
) -> Result<(), CrossStop>
    requires lie { All (LiesBelow 16384) places.now }
    requires inside { All (λ k. k < length places.now) kept.now }
    requires told { OfFile S.PageSource source.old (λ file.
        CanGather file page.now places.now kept.now room.old.left) }
    ensures values { OnOk result (OfFile S.PageSource source.old (λ file.
        cells.new ≡ cells.old ++ cells_of file page.now places.now kept.now)) }
    ensures left { OnOk result (OfFile S.PageSource source.old (λ file.
        room.new.left + pages_of_fields file page.now places.now kept.now ≡ room.old.left)) }
    ensures exact { OfFile S.PageSource source.old (λ file. OnlyReads result) }
    ensures broken { BreaksAt BreaksChain result }
    ensures cost { steps.new + room.new.left ≡ steps.old + room.old.left }
    ensures over { CrossesOver S.PageSource source.old source.new steps.old steps.new result }
{
    for k in kept {
        gather_field(source, page, place_of(places, *k), cells, room, steps)?;
    }
    Ok(())
}

/// Reads the record at an origin of a page, and answers whether it is spelled as it must be and ends on the page.
fn read_row(located: &mut Located, page: &Page, origin: usize, fields: &FieldList) -> bool
    requires origin { IsHeapOrigin origin }
    requires room { length fields.now.fields ≤ located.old.members }
    ensures places { IsTrue result → located.new.places ≡ places_of page.now origin fields.now }
    ensures lie { IsTrue result → All (LiesBelow 16384) located.new.places }
    ensures readable { IsSpelled page.now origin fields.now → record_end page.now origin fields.now ≤ 16384
        → IsTrue result }
    ensures members { located.new.members ≡ located.old.members }
{
    located.again(page, origin, fields) && located.end() <= PAGE_SIZE
}

/// Adds the values of the kept fields of all rows, and answers how many rows there are. Over a file that changed
/// `Broken` names the leaf in hand, if the walk breaks off there or a record isn't spelled as it must be (rule 40),
/// or a page of a chain (rule 49).
pub(crate) fn gather_rows<S: PageSource, L: Ledger>(
    source: &mut S,
    schema: &Schema,
    fields: &FieldList,
    kept: &[usize],
    rows: &mut LiveRows,
    located: &mut Located,
    cells: &mut KeptValues,
    room: &mut Room,
    steps: &mut Steps<L>,
) -> Result<usize, CrossStop>
    requires are { AreFields fields.now }
    requires list { fields.now ≡ leaf_fields schema.now 0 }
    requires kept { kept.now ≡ kept_fields schema.now }
    requires room { length fields.now.fields ≤ located.old.members }
    requires empty { cells.old ≡ [] }
    requires goes_on { rows.old.ended ≡ false }
    requires most { rows.old.live < 2 ^ 64 }
    requires told { OfFile S.PageSource source.old (λ file. CanGatherAll file schema.now rows.old) }
    requires few { OfFile S.PageSource source.old (λ file.
        length (all_chain_pages (clustered_tree file schema.now)) ≤ room.old.left) }
    ensures gathered { IfOk result (λ count. OfFile S.PageSource source.old (λ file.
        IsGathered file schema.now cells.new count)) }
    ensures exact { OfFile S.PageSource source.old (λ file. OnlyReads result) }
    ensures broken { BreaksAt (BreaksRow rows.new) result }
    ensures cost { steps.new ≤ steps.old + rows.old.leaf.may_fetch + room.old.left }
    ensures over { CrossesOver S.PageSource source.old source.new steps.old steps.new result }
{
    rows_can_be_read();
    has_one_chain();
    chain_goes_on();
    let mut count = 0;
    while let Some(origin) = rows.next(source, steps)? {
        let (page, number) = (rows.page(), rows.number());
        if !read_row(located, page, origin, fields) {
            return Err(CrossStop::Broken(Rule::RecordSpelling.at(number)));
        }
        gather_row(source, page, located.places(), kept, cells, room, steps)?;
        count += 1;
    }
    Ok(count)
}
