//! The records of the clustered index.

ghost use Rattle.std.specs.Prelude.{◌≡◌, ◌<◌, ◌≤◌, ◌∷◌, ◌++◌, [], IfOk, OnOk, length, slice_index, take};
ghost use Rattle.row_layout.specs.StoredRow.{kept, kept_prefix, off_local};
ghost use Rattle.row_layout.specs.HoldsValues.{stored_in, clustered_entry};
ghost use Rattle.space_builder.specs.calls.Picked.{first_page_in, clustered_part};

use crate::entries::{Entries, Leaves};
use compact_record::Parts;
use offpage_chain::layout::REFERENCE_SIZE;
use offpage_chain::{Reference, write_reference};
use page_source::{ByteList, NoMemory};
use row_store::StoredRows;
use schema_text::Format;
use std::alloc::Global;

/// The entries of the clustered index: the rows, in order.
#[derive(Clone, Copy)]
pub(crate) struct ClusteredEntries<'a> {
    /// The rows, and their format.
    pub(crate) rows: &'a StoredRows,
    pub(crate) format: Format,
    /// The pages where the bytes of fields begin that go off the page, 0 past the last, and where those of each row
    /// begin among these.
    pub(crate) first_pages: &'a [u32],
    pub(crate) starts: &'a [u32],
}

/// How many bytes of a value stay where it goes off the page.
pub(crate) fn kept_prefix(format: Format) -> usize
    ensures { result ≡ kept_prefix format }
{
    match format {
        Format::Compact => 768,
        Format::Dynamic => 0,
    }
}

/// What stays on the page of a value of so many bytes that goes on from that page on.
fn off_local(
    alloc: Global,
    format: Format,
    page: u32,
    bytes: &[u8],
    size: u32,
) -> Result<ByteList, NoMemory>
    requires { size ≡ length bytes.now }
    ensures { IfOk result (λ local. local ≡ off_local format page (kept bytes.now)) }
{
    let prefix = kept_prefix(format).min(bytes.len());
    let mut reference = [0; REFERENCE_SIZE];
    write_reference(
        &mut reference,
        &Reference {
            space: 1,
            page,
            offset: 38,
            length: size - prefix as u32,
        },
    );
    let mut local = ByteList::new(alloc);
    local.extend(&bytes[..prefix])?;
    local.extend(&reference)?;
    Ok(local)
}

/// Number `i`; 0 past the last.
fn number_at(numbers: &[u32], i: usize) -> u32
    ensures { result ≡ slice_index numbers.now i }
{
    if i < numbers.len() { numbers[i] } else { 0 }
}

impl ClusteredEntries<'_> {
    /// The page where the bytes of a field begin.
    fn first_page(&self, r: usize, i: usize) -> u32
        ensures { result ≡ first_page_in self.now.starts.now self.now.first_pages.now r i 0 }
    {
        let start = number_at(self.starts, r) as usize;
        number_at(self.first_pages, start.saturating_add(i))
    }

    /// Adds a field of a row.
    fn push_field(
        &self,
        alloc: Global,
        parts: &mut Parts,
        r: usize,
        i: usize,
    ) -> Result<(), NoMemory>
        requires row { r < length self.now.rows.now }
        requires field { i < length (stored_in self.now.rows.now r) }
        ensures { OnOk result (parts.new ≡ parts.old ++ clustered_part self.now.format
            (first_page_in self.now.starts.now self.now.first_pages.now) self.now.rows.now r i ∷ []) }
    {
        let rows = self.rows;
        if rows.is_null(r, i) {
            return parts.push_null();
        }
        let bytes = rows.bytes(r, i);
        if !rows.is_off(r, i) {
            return parts.push(bytes, false);
        }
        let page = self.first_page(r, i);
        let local = off_local(alloc, self.format, page, bytes, rows.length(r, i))?;
        parts.push(local.bytes(), true)
    }

    /// The first fields of a row, so many.
    fn first_fields(&self, alloc: Global, r: usize, count: usize) -> Result<Parts, NoMemory>
        requires row { r < length self.now.rows.now }
        requires count { count ≤ length (stored_in self.now.rows.now r) }
        ensures { IfOk result (λ parts. parts ≡ take count (clustered_entry self.now.format
            (first_page_in self.now.starts.now self.now.first_pages.now) self.now.rows.now r)) }
    {
        let mut parts = Parts::new(alloc);
        for i in 0..count {
            self.push_field(alloc, &mut parts, r, i)?;
        }
        Ok(parts)
    }
}

impl Entries for ClusteredEntries<'_> {
    ghost use Rattle.row_layout.specs.HoldsValues.{clustered_entries};

    ghost entries = { λ e.
        clustered_entries e.format (first_page_in e.starts.now e.first_pages.now) e.rows.now };

    fn count(&self) -> usize {
        self.rows.count()
    }

    fn parts(&self, alloc: Global, k: usize) -> Result<Parts, NoMemory> {
        self.first_fields(alloc, k, self.rows.width(k))
    }
}

impl Leaves for ClusteredEntries<'_> {
    fn key(&self, alloc: Global, k: usize, keys: usize) -> Result<Parts, NoMemory> {
        self.first_fields(alloc, k, keys.min(self.rows.width(k)))
    }
}
