//! The fields of one row, as they are stored.

ghost use Rattle.std.specs.Prelude.{◌≡◌, ◌<◌, ◌≤◌, [], ◌∷◌, ◌++◌, length, false, OnOk};
ghost use Rattle.row_layout.specs.StoredRow.{stored_at, with_off};
ghost use Rattle.std.specs.Option.{option_copied};
ghost use Rattle.row_store.specs.calls.Stored.{AreSpots, spot_at, spot_start};
ghost use Rattle.row_store.specs.StoredRows.{value_of};

use crate::marks::FieldSpot;
use crate::stored::StoredRows;
use page_source::NoMemory;
use std::alloc::Global;
use std::marker::Model;

/// Where the bytes of field `i` begin, and where they end.
pub(crate) fn range_of(spots: &[FieldSpot], bytes: &[u8], i: usize) -> (usize, usize)
    requires within { i < length spots.now }
    requires are { AreSpots spots.now bytes.now }
    ensures start { result.0 ≡ spot_start spots.now i }
    ensures end { result.1 ≡ (spot_at spots.now i).end }
    ensures rising { result.0 ≤ result.1 }
    ensures inside { result.1 ≤ length bytes.now }
{
    let _count = bytes.len();
    let start = if i == 0 { 0 } else { spots[i - 1].end };
    (start, spots[i].end)
}

/// The fields of a row, one after another.
#[derive(Drop)]
pub(crate) struct RowFields {
    spots: Vec<FieldSpot>,
    bytes: Vec<u8>,
}

impl Model for RowFields {
    ghost use Rattle.std.specs.Prelude.{List};
    ghost use Rattle.row_layout.specs.StoredRow.{Stored};
    ghost use Rattle.row_store.specs.calls.Stored.{row_of};
    ghost use Rattle.row_store.specs.calls.RowFields.{AreFilled};

    ghost Value = { List Stored };

    ghost view = { λ row. row_of row.spots.items row.bytes.items };

    ghost invariant = { λ row. AreFilled row.spots.items row.bytes.items };
}

impl RowFields {
    /// No field yet.
    pub(crate) fn new(alloc: Global) -> RowFields
        ensures { result ≡ [] }
    {
        RowFields {
            spots: Vec::new(alloc),
            bytes: Vec::new(alloc),
        }
    }

    /// Lets go of all fields, and keeps their memory.
    pub(crate) fn clear(&mut self)
        ensures { self.new ≡ [] }
    {
        self.spots.clear();
        self.bytes.clear();
    }

    /// Adds a field whose bytes stay on the page.
    pub(crate) fn push(&mut self, null: bool, bytes: &[u8]) -> Result<(), NoMemory>
        ensures { OnOk result (self.new
            ≡ self.old ++ (record { null = null; off = false; bytes = bytes.now }) ∷ []) }
    {
        let start = self.bytes.len();
        self.bytes.extend_from_slice(bytes)?;
        let end = self.bytes.len();
        if let Err(full) = self.spots.push(FieldSpot {
            null,
            off: false,
            end,
        }) {
            self.bytes.truncate(start);
            return Err(full.into());
        }
        Ok(())
    }

    /// How many fields there are.
    pub(crate) fn len(&self) -> usize
        ensures { result ≡ length self.now }
    {
        self.spots.len()
    }

    /// Where field `i` ends, whether it is null, and whether its bytes go off the page.
    fn spot(&self, i: usize) -> FieldSpot
        requires { i < length self.now }
        ensures null { result.null ≡ (stored_at self.now i).null }
        ensures off { result.off ≡ (stored_at self.now i).off }
    {
        self.spots[i]
    }

    /// Whether field `i` is null.
    pub(crate) fn is_null(&self, i: usize) -> bool
        requires { i < length self.now }
        ensures { result ≡ (stored_at self.now i).null }
    {
        self.spot(i).null
    }

    /// Whether the bytes of field `i` go off the page.
    pub(crate) fn is_off(&self, i: usize) -> bool
        requires { i < length self.now }
        ensures { result ≡ (stored_at self.now i).off }
    {
        self.spot(i).off
    }

    /// The bytes of field `i`.
    pub(crate) fn bytes(&self, i: usize) -> &[u8]
        requires { i < length self.now }
        ensures { result.now ≡ (stored_at self.now i).bytes }
    {
        let (start, end) = range_of(&self.spots, &self.bytes, i);
        &self.bytes[start..end]
    }

    /// The bytes of field `i`, none if it is null.
    pub(crate) fn value(&self, i: usize) -> Option<&[u8]>
        requires { i < length self.now }
        ensures { option_copied result ≡ value_of (stored_at self.now i) }
    {
        if self.is_null(i) {
            None
        } else {
            Some(self.bytes(i))
        }
    }

    /// Lets field `i` go off the page.
    pub(crate) fn send_off(&mut self, i: usize)
        requires { i < length self.old }
        ensures { self.new ≡ with_off i self.old }
    {
        let FieldSpot { null, end, .. } = self.spots[i];
        self.spots[i] = FieldSpot {
            null,
            off: true,
            end,
        };
    }

    /// Adds the row to others.
    pub(crate) fn store(&self, rows: &mut StoredRows) -> Result<(), NoMemory>
        ensures { OnOk result (rows.new ≡ rows.old ++ self.now ∷ []) }
    {
        rows.push(&self.spots, &self.bytes)
    }
}
