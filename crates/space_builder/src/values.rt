//! The pages of values that go on off the pages of their records.

ghost use Rattle.std.specs.Prelude.{◌≡◌, ℕ, ◌+◌, ◌<◌, ◌≤◌, false, [], ◌∷◌, ◌++◌, IfOk, OnOk, drop, length, map};
ghost use Rattle.std.specs.Prelude.{slice_index, sum};
ghost use Rattle.std.specs.List.{range_with_len};
ghost use Rattle.space_layout.specs.Numbers.{IsShape, segment_page};
ghost use Rattle.offpage_chain.specs.ValuePage.{pages_for};
ghost use Rattle.row_layout.specs.StoredRow.{kept_prefix, stored_at};
ghost use Rattle.row_layout.specs.HoldsValues.{stored_in};
ghost use Rattle.space_builder.specs.layout.ValuePage.{pages_of_bytes};
ghost use Rattle.space_builder.specs.build.Puts.{PutsPages};
ghost use Rattle.space_builder.specs.calls.Room.{TakesPages, HasLeafPages, gone_bytes, row_counts, row_pages};
ghost use Rattle.space_builder.specs.calls.Room.{first_page, row_first_pages, pages_behind, AreFirstPages};
ghost use Rattle.space_builder.specs.calls.Room.{KeepsRow, TakesRow, TakesValues};

use crate::built::PutStop;
use offpage_chain::layout::LONGEST_PART;
use offpage_chain::write_chain;
use page_source::{NoMemory, Page, PageStore};
use row_store::StoredRows;
use schema_text::Format;
use space_layout::laws::numbers_differ;
use space_layout::{BUILT_SPACE, segment_page};
use std::alloc::Global;

/// The segment of the leaves of the first index.
const LEAVES: usize = 1;

/// How many bytes of a value stay on the page of its record.
fn kept_prefix(format: Format) -> usize
    ensures { result ≡ kept_prefix format }
{
    match format {
        Format::Compact => 768,
        Format::Dynamic => 0,
    }
}

/// The bytes behind the first ones, which may be fewer.
fn bytes_behind(bytes: &[u8], kept: usize) -> &[u8]
    ensures { result.now ≡ drop kept bytes.now }
{
    if kept < bytes.len() {
        &bytes[kept..]
    } else {
        &[]
    }
}

/// The bytes of field `i` of row `r` that are off the page of its record.
fn gone_bytes(stored: &StoredRows, r: usize, i: usize, format: Format) -> &[u8]
    requires row { r < length stored.now }
    requires field { i < length (stored_in stored.now r) }
    ensures { result.now ≡ gone_bytes format (stored_at (stored_in stored.now r) i) }
{
    if stored.is_off(r, i) {
        bytes_behind(stored.bytes(r, i), kept_prefix(format))
    } else {
        &[]
    }
}

/// Lists the numbers of so many pages of the leaf segment from a place on.
fn list_numbers(
    numbers: &mut Vec<u32>,
    sizes: &[u32],
    at: u32,
    count: usize,
) -> Result<(), NoMemory>
    requires shape { IsShape sizes.now }
    requires has { HasLeafPages sizes.now (at + count) }
    ensures { OnOk result
        (numbers.new.items ≡ map (λ k. segment_page sizes.now 1 (at + k)) (range_with_len 0 count)) }
{
    numbers.clear();
    for k in 0..count {
        numbers.push(segment_page(sizes, LEAVES, at + k as u32))?;
    }
    Ok(())
}

/// Adds the first of these numbers, 0 where there is none.
fn list_first(first_pages: &mut Vec<u32>, numbers: &[u32]) -> Result<(), NoMemory>
    ensures { OnOk result (first_pages.new.items ≡ first_pages.old.items ++ slice_index numbers.now 0 ∷ []) }
{
    let first = match numbers.first() {
        Some(first) => *first,
        None => 0,
    };
    first_pages.push(first)?;
    Ok(())
}

/// The pages on which the fields of rows begin that go on off the pages of their records.
#[derive(Debug, Drop)]
pub(crate) struct FirstPages {
    /// The pages, one for each field of a row that has such a field, and any for its others.
    pub(crate) pages: Vec<u32>,
    /// Where the pages of each row begin in that list; any place for a row without such fields.
    pub(crate) starts: Vec<u32>,
}

/// A page to make, the numbers of the pages of one value, and the first pages of fields so far.
#[derive(Debug, Drop)]
struct ValueRoom {
    page: Page,
    numbers: Vec<u32>,
    first_pages: Vec<u32>,
    starts: Vec<u32>,
}

/// Puts the pages of a value, from place `at` of the leaf segment on. Answers the place behind them.
fn put_value<T: PageStore>(
    store: &mut T,
    room: &mut ValueRoom,
    sizes: &[u32],
    at: u32,
    bytes: &[u8],
) -> Result<u32, PutStop>
    requires takes { TakesPages (T.told store.old) sizes.now }
    requires has { HasLeafPages sizes.now (at + pages_for (length bytes.now)) }
    ensures next { IfOk result (λ next. next ≡ at + pages_for (length bytes.now)) }
    ensures puts { PutsPages T.PageStore store.old store.new
        (pages_of_bytes (λ k. segment_page sizes.now 1 (at + k)) bytes.now) result }
    ensures first { OnOk result (room.new.first_pages.items ≡ room.old.first_pages.items
        ++ first_page (λ k. segment_page sizes.now 1 (at + k)) (pages_for (length bytes.now)) ∷ []) }
    ensures starts { room.new.starts.items ≡ room.old.starts.items }
{
    numbers_differ();
    let count = (bytes.len() + (LONGEST_PART as usize - 1)) / LONGEST_PART as usize;
    list_numbers(&mut room.numbers, sizes, at, count)?;
    list_first(&mut room.first_pages, &room.numbers)?;
    write_chain(store, BUILT_SPACE, &room.numbers, bytes, &mut room.page)?;
    Ok(at + count as u32)
}

/// Puts the pages of the values of row `r`, from place `at` of the leaf segment on. Answers the place behind them.
fn put_row<T: PageStore>(
    store: &mut T,
    room: &mut ValueRoom,
    stored: &StoredRows,
    r: usize,
    format: Format,
    sizes: &[u32],
    at: u32,
) -> Result<u32, PutStop>
    requires row { r < length stored.now }
    requires takes { TakesRow (T.told store.old) format sizes.now at (stored_in stored.now r) }
    ensures next { IfOk result (λ next. next ≡ at + sum (row_counts format (stored_in stored.now r))) }
    ensures puts { PutsPages T.PageStore store.old store.new (row_pages format sizes.now at (stored_in stored.now r))
        result }
    ensures first { OnOk result (room.new.first_pages.items
        ≡ room.old.first_pages.items ++ row_first_pages format sizes.now at (stored_in stored.now r)) }
    ensures starts { room.new.starts.items ≡ room.old.starts.items }
{
    let mut next = at;
    for i in 0..stored.width(r) {
        let bytes = gone_bytes(stored, r, i, format);
        next = put_value(store, room, sizes, next, bytes)?;
    }
    Ok(next)
}

/// Whether a field of row `r` goes on off the page of its record.
fn goes_off(stored: &StoredRows, r: usize) -> bool
    requires { r < length stored.now }
    ensures { result ≡ false → (i : ℕ) → i < length (stored_in stored.now r)
        → (stored_at (stored_in stored.now r) i).off ≡ false }
{
    for i in 0..stored.width(r) {
        if stored.is_off(r, i) {
            return true;
        }
    }
    false
}

/// Lists 0 for the rows before row `r` that have no place yet.
fn list_none(starts: &mut Vec<u32>, r: usize) -> Result<(), NoMemory>
    requires { length starts.old.items ≤ r }
    ensures size { OnOk result (length starts.new.items ≡ r) }
    ensures same { OnOk result
        ((q : ℕ) → slice_index starts.new.items q ≡ slice_index starts.old.items q) }
{
    for _row in starts.len()..r {
        starts.push(0)?;
    }
    Ok(())
}

/// Lists the place from which on the pages of row `r` stand.
fn list_start(starts: &mut Vec<u32>, r: usize, place: usize) -> Result<(), NoMemory>
    requires { length starts.old.items ≤ r }
    ensures size { OnOk result (length starts.new.items ≡ r + 1) }
    ensures here { OnOk result (slice_index starts.new.items r ≡ place) }
    ensures same { OnOk result
        ((q : ℕ) → q < r → slice_index starts.new.items q ≡ slice_index starts.old.items q) }
{
    let Ok(start) = u32::try_from(place) else {
        return Err(NoMemory);
    };
    list_none(starts, r)?;
    starts.push(start)?;
    Ok(())
}

/// Puts the pages of the values of row `r` like `put_row`, and keeps where its fields begin; both only where one of
/// these goes on off the page of its record.
fn put_going<T: PageStore>(
    store: &mut T,
    room: &mut ValueRoom,
    stored: &StoredRows,
    r: usize,
    format: Format,
    sizes: &[u32],
    at: u32,
) -> Result<u32, PutStop>
    requires row { r < length stored.now }
    requires few { length room.old.starts.items ≤ r }
    requires takes { TakesRow (T.told store.old) format sizes.now at (stored_in stored.now r) }
    ensures next { IfOk result (λ next. next ≡ at + sum (row_counts format (stored_in stored.now r))) }
    ensures puts { PutsPages T.PageStore store.old store.new (row_pages format sizes.now at (stored_in stored.now r))
        result }
    ensures keeps { OnOk result (KeepsRow (stored_in stored.now r) r
        (row_first_pages format sizes.now at (stored_in stored.now r)) room.old.starts.items room.new.starts.items
        room.old.first_pages.items room.new.first_pages.items) }
{
    if !goes_off(stored, r) {
        return Ok(at);
    }
    let place = room.first_pages.len();
    list_start(&mut room.starts, r, place)?;
    put_row(store, room, stored, r, format, sizes, at)
}

/// Puts the pages of the values of all rows, behind so many leaves of the first index. Answers where each field
/// begins that goes on off the page of its record.
pub(crate) fn put_values<T: PageStore>(
    alloc: Global,
    store: &mut T,
    stored: &StoredRows,
    format: Format,
    sizes: &[u32],
    leaves: u32,
) -> Result<FirstPages, PutStop>
    requires { TakesValues (T.told store.old) format sizes.now leaves stored.now }
    ensures puts { PutsPages T.PageStore store.old store.new (pages_behind format sizes.now leaves stored.now) result }
    ensures first { IfOk result
        (λ first. AreFirstPages format sizes.now leaves stored.now first.starts.items first.pages.items) }
{
    let mut room = ValueRoom {
        page: Page::zeroed(alloc)?,
        numbers: Vec::new(alloc),
        first_pages: Vec::new(alloc),
        starts: Vec::new(alloc),
    };
    let mut next = leaves;
    for r in 0..stored.count() {
        next = put_going(store, &mut room, stored, r, format, sizes, next)?;
    }
    Ok(FirstPages {
        pages: room.first_pages,
        starts: room.starts,
    })
}
