//! The entries of the indexes that aren't the clustered one.

ghost use Rattle.std.specs.Prelude.{◌≡◌, ◌<◌, ◌≤◌, ◌∷◌, ◌++◌, [], IfOk, OnOk, length, slice_index, take};
ghost use Rattle.row_layout.specs.StoredRow.{stored_at};
ghost use Rattle.row_layout.specs.HoldsValues.{stored_in};
ghost use Rattle.space_builder.specs.calls.Picked.{whole_part, picked_entry};

use crate::entries::{Entries, Leaves};
use compact_record::Parts;
use page_source::NoMemory;
use row_store::StoredRows;
use std::alloc::Global;

/// The entries of an index: some fields of the rows, which are in some order.
#[derive(Clone, Copy)]
pub(crate) struct SecondaryEntries<'a> {
    /// The rows, and their order in the index.
    pub(crate) rows: &'a StoredRows,
    pub(crate) order: &'a [u32],
    /// Which fields of a row an entry has.
    pub(crate) fields: &'a [usize],
}

/// Adds a field of a row, all of it on the page.
fn push_whole(parts: &mut Parts, rows: &StoredRows, r: usize, i: usize) -> Result<(), NoMemory>
    ensures { OnOk result (parts.new ≡ parts.old ++ whole_part (stored_at (stored_in rows.now r) i) ∷ []) }
{
    match rows.value(r, i) {
        Some(bytes) => parts.push(bytes, false),
        None => parts.push_null(),
    }
}

impl SecondaryEntries<'_> {
    /// So many fields of the entry of row `r`.
    fn first_fields(&self, alloc: Global, r: usize, count: usize) -> Result<Parts, NoMemory>
        requires { count ≤ length self.now.fields.now }
        ensures { IfOk result
            (λ parts. parts ≡ take count (picked_entry self.now.fields.now (stored_in self.now.rows.now r))) }
    {
        let mut parts = Parts::new(alloc);
        for k in 0..count {
            push_whole(&mut parts, self.rows, r, self.fields[k])?;
        }
        Ok(parts)
    }
}

impl Entries for SecondaryEntries<'_> {
    ghost use Rattle.space_builder.specs.calls.Picked.{picked_entries};

    ghost entries = { λ e. picked_entries e.fields.now e.rows.now e.order.now };

    fn count(&self) -> usize {
        self.order.len()
    }

    fn parts(&self, alloc: Global, k: usize) -> Result<Parts, NoMemory> {
        self.first_fields(alloc, self.order[k] as usize, self.fields.len())
    }
}

impl Leaves for SecondaryEntries<'_> {
    fn key(&self, alloc: Global, k: usize, keys: usize) -> Result<Parts, NoMemory> {
        self.first_fields(alloc, self.order[k] as usize, keys.min(self.fields.len()))
    }
}
