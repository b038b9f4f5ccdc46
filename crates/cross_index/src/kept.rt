//! Which fields of the rows the secondary indexes take.

ghost use Rattle.std.specs.Prelude.{◌≡◌, ◌==◌, ℕ, ◌<◌, Contains, IfOk, length, slice_index_or};
ghost use Rattle.std.specs.List.{list_any};
ghost use Rattle.schema_text.specs.IndexFields.{fields_of_columns, leaf_fields};
ghost use Rattle.cross_index.specs.calls.Gather.{all_entry_fields, kept_fields, StandsAt};

use page_source::NoMemory;
use schema_text::{Schema, push_entry_fields};
use std::alloc::Global;

/// The fields that the entries of all secondary indexes have, one index after another.
fn all_fields(alloc: Global, schema: &Schema, at: &[usize]) -> Result<Vec<usize>, NoMemory>
    requires columns { at.now ≡ fields_of_columns schema.now }
    ensures { IfOk result (λ list. list.items ≡ all_entry_fields schema.now) }
{
    let mut list = Vec::new(alloc);
    for index in 1..schema.indexes().len() {
        push_entry_fields(&mut list, schema, at, index)?;
    }
    Ok(list)
}

/// Whether the field is among these.
fn is_taken(fields: &[usize], field: usize) -> bool
    ensures { result ≡ list_any (λ j. j == field) fields.now }
{
    fields.iter().any(|f| *f == field)
}

/// The fields that some entry has, each once; a row has so many fields.
pub(crate) fn kept_fields(
    alloc: Global,
    schema: &Schema,
    at: &[usize],
    count: usize,
) -> Result<Vec<usize>, NoMemory>
    requires columns { at.now ≡ fields_of_columns schema.now }
    requires count { count ≡ length (leaf_fields schema.now 0).fields }
    ensures { IfOk result (λ list. list.items ≡ kept_fields schema.now) }
{
    let all = all_fields(alloc, schema, at)?;
    let mut list = Vec::new(alloc);
    for field in 0..count {
        if is_taken(&all, field) {
            list.push(field)?;
        }
    }
    Ok(list)
}

/// Where each of some fields stands among the kept ones.
pub(crate) fn slots_of(
    alloc: Global,
    kept: &[usize],
    fields: &[usize],
) -> Result<Vec<usize>, NoMemory>
    ensures count { IfOk result (λ slots. length slots.items ≡ length fields.now) }
    ensures each { IfOk result (λ slots. (i : ℕ) → i < length fields.now
        → Contains kept.now (slice_index_or fields.now i 0)
        → StandsAt kept.now (slice_index_or slots.items i 0) (slice_index_or fields.now i 0)) }
{
    let mut slots = Vec::new(alloc);
    for field in fields {
        let slot = kept.iter().position(|k| k == field).unwrap_or(kept.len());
        slots.push(slot)?;
    }
    Ok(slots)
}
