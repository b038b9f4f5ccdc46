//! Rows as they are stored, one after another in memory.

ghost use Rattle.std.specs.Prelude.{◌≡◌, ◌+◌, ◌<◌, ◌≤◌, [], ◌∷◌, ◌++◌, IfOk, IfSome, OnOk, OnErr, length, map};
ghost use Rattle.std.specs.Prelude.{take};
ghost use Rattle.std.specs.Option.{option_copied};
ghost use Rattle.row_layout.specs.StoredRow.{stored_at};
ghost use Rattle.row_layout.specs.HoldsValues.{stored_in};
ghost use Rattle.row_store.specs.calls.Stored.{AreSpots, row_of, spot_at, spot_start};
ghost use Rattle.row_store.specs.StoredRows.{value_of};
ghost use Rattle.row_store.specs.calls.Arena.{AreMarked, spot_of, span_of};

use crate::marks::{FieldSpot, Mark, are_marked, end_of, field_start, push_marks};
use page_source::NoMemory;
use std::alloc::Global;
use std::marker::Model;

/// Where a row lies: the place of its first byte, by its upper and its lower bits, and of the first of its marks, and
/// how many it has.
#[derive(Clone, Copy, Debug, PartialEq, Eq)]
struct RowSpan {
    high: u16,
    width: u16,
    low: u32,
    first: u32,
}

/// The lower bits of a byte's number.
const LOW: usize = 4_294_967_296;

impl RowSpan {
    /// A row of so many fields.
    fn new(start: usize, first: usize, width: usize) -> Result<RowSpan, NoMemory>
        ensures { IfOk result (λ span. span_of span ≡ record { start = start; first = first; width = width }) }
    {
        if start / LOW > 65535 || first >= LOW || width > 65535 {
            return Err(NoMemory);
        }
        Ok(RowSpan {
            high: (start / LOW) as u16,
            width: width as u16,
            low: (start % LOW) as u32,
            first: first as u32,
        })
    }

    /// The place of the row's first byte.
    fn start(self) -> usize
        ensures { result ≡ (span_of self).start }
    {
        usize::from(self.high) * LOW + self.low as usize
    }
}

/// Rows in three lists: marks of where fields end, the bytes of all fields, and where each row lies in these two. Rows
/// may share their marks.
#[derive(Debug, Drop)]
struct Lists {
    marks: Vec<Mark>,
    bytes: Vec<u8>,
    spans: Vec<RowSpan>,
}

/// The marks of a row are looked for among those of so many rows before it.
const RECENT: usize = 8;

/// Where the marks of these fields stand, if one of the last rows has them.
fn recent_marks(marks: &[Mark], spans: &[RowSpan], fields: &[FieldSpot]) -> Option<usize>
    ensures { IfSome result (AreMarked (map spot_of marks.now) fields.now) }
{
    let from = spans.len().saturating_sub(RECENT);
    for r in from..spans.len() {
        let first = spans[r].first as usize;
        if are_marked(marks, fields, first) {
            return Some(first);
        }
    }
    None
}

/// Where the marks of these fields stand; adds them if no recent row has them.
fn marks_for(
    marks: &mut Vec<Mark>,
    spans: &[RowSpan],
    fields: &[FieldSpot],
) -> Result<usize, NoMemory>
    ensures ok { IfOk result (AreMarked (map spot_of marks.new.items) fields.now) }
    ensures begins { take (length marks.old.items) marks.new.items ≡ marks.old.items }
{
    match recent_marks(marks, spans, fields) {
        Some(first) => Ok(first),
        None => push_marks(marks, fields),
    }
}

impl Lists {
    ghost use Rattle.row_store.specs.calls.Arena.{AddsFields, AreRowsIn, Begins, arena_of, bytes_in, span_at};
    ghost use Rattle.row_store.specs.calls.Arena.{spots_in};

    /// Adds a row; where memory runs out, a part of it may stand there.
    fn add(&mut self, fields: &[FieldSpot], row: &[u8]) -> Result<(), NoMemory>
        requires { AreSpots fields.now row.now }
        ensures ok { OnOk result (AddsFields (arena_of self.old) (arena_of self.new) fields.now row.now) }
        ensures err { OnErr result (Begins self.old self.new) }
    {
        let first = marks_for(&mut self.marks, &self.spans, fields)?;
        let span = RowSpan::new(self.bytes.len(), first, fields.len())?;
        self.bytes.extend_from_slice(&row[..end_of(fields)])?;
        self.spans.push(span)?;
        Ok(())
    }

    /// Adds a row, or nothing.
    fn push(&mut self, fields: &[FieldSpot], row: &[u8]) -> Result<(), NoMemory>
        requires { AreSpots fields.now row.now }
        ensures ok { OnOk result (AddsFields (arena_of self.old) (arena_of self.new) fields.now row.now) }
        ensures err { OnErr result (arena_of self.new ≡ arena_of self.old) }
    {
        let marks = self.marks.len();
        let bytes = self.bytes.len();
        match self.add(fields, row) {
            Ok(()) => Ok(()),
            Err(stop) => {
                self.marks.truncate(marks);
                self.bytes.truncate(bytes);
                Err(stop)
            }
        }
    }

    /// The marks of row `r`.
    fn marks_of(&self, r: usize) -> &[Mark]
        requires rows { AreRowsIn (arena_of self.now) }
        requires row { r < length self.now.spans.items }
        ensures { map spot_of result.now ≡ spots_in (arena_of self.now) (span_at (arena_of self.now) r) }
    {
        let span = self.spans[r];
        let first = span.first as usize;
        &self.marks[first..first + usize::from(span.width)]
    }

    /// Field `i` of row `r`.
    fn spot(&self, r: usize, i: usize) -> FieldSpot
        requires rows { AreRowsIn (arena_of self.now) }
        requires row { r < length self.now.spans.items }
        requires field { i < length (spots_in (arena_of self.now) (span_at (arena_of self.now) r)) }
        ensures { result ≡ spot_at (spots_in (arena_of self.now) (span_at (arena_of self.now) r)) i }
    {
        self.marks_of(r)[i].spot()
    }

    /// The bytes of row `r`, and those of the rows behind it.
    fn bytes_of(&self, r: usize) -> &[u8]
        requires rows { AreRowsIn (arena_of self.now) }
        requires row { r < length self.now.spans.items }
        ensures { result.now ≡ bytes_in (arena_of self.now) (span_at (arena_of self.now) r) }
    {
        &self.bytes[self.spans[r].start()..]
    }

    /// Where field `i` of row `r` begins and ends among the bytes of the row.
    fn place(&self, r: usize, i: usize) -> (usize, usize)
        requires rows { AreRowsIn (arena_of self.now) }
        requires row { r < length self.now.spans.items }
        requires field { i < length (spots_in (arena_of self.now) (span_at (arena_of self.now) r)) }
        ensures start { result.0 ≡ spot_start (spots_in (arena_of self.now) (span_at (arena_of self.now) r)) i }
        ensures end { result.1 ≡ (spot_at (spots_in (arena_of self.now) (span_at (arena_of self.now) r)) i).end }
        ensures rising { result.0 ≤ result.1 }
        ensures inside { result.1 ≤ length (bytes_in (arena_of self.now) (span_at (arena_of self.now) r)) }
        ensures few { result.1 < 4294967296 }
    {
        let marks = self.marks_of(r);
        (field_start(marks, i), marks[i].spot().end)
    }
}

/// Rows as they are stored, one after another.
#[derive(Debug, Drop)]
pub struct StoredRows {
    lists: Lists,
}

impl Model for StoredRows {
    ghost use Rattle.std.specs.Prelude.{List};
    ghost use Rattle.row_layout.specs.StoredRow.{Stored};
    ghost use Rattle.row_store.specs.calls.Arena.{AreRowsIn, arena_of, rows_in};

    ghost Value = { List (List Stored) };

    ghost view = { λ rows. rows_in (arena_of rows.lists) };

    ghost invariant = { λ rows. AreRowsIn (arena_of rows.lists) };
}

impl StoredRows {
    /// No row yet, which takes no memory.
    pub(crate) fn new(alloc: Global) -> StoredRows
        ensures { result ≡ [] }
    {
        StoredRows {
            lists: Lists {
                marks: Vec::new(alloc),
                bytes: Vec::new(alloc),
                spans: Vec::new(alloc),
            },
        }
    }

    /// Adds a row whose fields lie so among these bytes.
    pub(crate) fn push(&mut self, fields: &[FieldSpot], bytes: &[u8]) -> Result<(), NoMemory>
        requires { AreSpots fields.now bytes.now }
        ensures ok { OnOk result (self.new ≡ self.old ++ row_of fields.now bytes.now ∷ []) }
        ensures err { OnErr result (self.new ≡ self.old) }
    {
        self.lists.push(fields, bytes)?;
        Ok(())
    }

    /// How many rows there are.
    pub fn count(&self) -> usize
        ensures { result ≡ length self.now }
    {
        self.lists.spans.len()
    }

    /// How many fields row `r` has.
    pub fn width(&self, r: usize) -> usize
        requires { r < length self.now }
        ensures { result ≡ length (stored_in self.now r) }
    {
        usize::from(self.lists.spans[r].width)
    }

    /// Where field `i` of row `r` ends, whether it has no value, and whether its bytes go off the page of the record.
    fn spot(&self, r: usize, i: usize) -> FieldSpot
        requires row { r < length self.now }
        requires field { i < length (stored_in self.now r) }
        ensures null { result.null ≡ (stored_at (stored_in self.now r) i).null }
        ensures off { result.off ≡ (stored_at (stored_in self.now r) i).off }
    {
        self.lists.spot(r, i)
    }

    /// Whether field `i` of row `r` has no value.
    pub fn is_null(&self, r: usize, i: usize) -> bool
        requires row { r < length self.now }
        requires field { i < length (stored_in self.now r) }
        ensures { result ≡ (stored_at (stored_in self.now r) i).null }
    {
        self.spot(r, i).null
    }

    /// Whether the bytes of field `i` of row `r` go on off the page of the record.
    pub fn is_off(&self, r: usize, i: usize) -> bool
        requires row { r < length self.now }
        requires field { i < length (stored_in self.now r) }
        ensures { result ≡ (stored_at (stored_in self.now r) i).off }
    {
        self.spot(r, i).off
    }

    /// The bytes of field `i` of row `r`.
    pub fn bytes(&self, r: usize, i: usize) -> &[u8]
        requires row { r < length self.now }
        requires field { i < length (stored_in self.now r) }
        ensures { result.now ≡ (stored_at (stored_in self.now r) i).bytes }
    {
        let (start, end) = self.lists.place(r, i);
        &self.lists.bytes_of(r)[start..end]
    }

    /// How many bytes field `i` of row `r` has.
    pub fn length(&self, r: usize, i: usize) -> u32
        requires row { r < length self.now }
        requires field { i < length (stored_in self.now r) }
        ensures { result ≡ length (stored_at (stored_in self.now r) i).bytes }
    {
        let (start, end) = self.lists.place(r, i);
        (end - start) as u32
    }

    /// The value of field `i` of row `r`, wherever its bytes stand; none if there is no such field.
    pub fn value(&self, r: usize, i: usize) -> Option<&[u8]>
        ensures { option_copied result ≡ value_of (stored_at (stored_in self.now r) i) }
    {
        if r < self.count() && i < self.width(r) && !self.is_null(r, i) {
            Some(self.bytes(r, i))
        } else {
            None
        }
    }
}
