//! The columns and the root of an index.

ghost use Rattle.std.specs.Prelude.{◌≡◌, ◌≤◌, [], ℕ, List, length, drop, decimal, All, Any, IsTrue, IfOk};
ghost use Rattle.std.specs.Prelude.{MatchResult, Some, None, ◌↔◌, Bool, true, false};
ghost use Rattle.schema_text.specs.declared.table.Column.{Column};
ghost use Rattle.schema_text.specs.Grammar.{IsRoot};
ghost use Rattle.schema_text.specs.Refusals.{KeyChecks, HasCounts, HasNewNames, HasKey, IsDeclared};
ghost use Rattle.schema_text.specs.Refusals.{IsNewRoot, columns_named, column_named};
ghost use Rattle.schema_text.specs.Cuts.{MayJoin, MakesKey, IsKeyStep, IsPlaceOf, ArePlacesOf, IsAmong};

use crate::errors::SchemaWhy;
use crate::line::Words;
use crate::names::{are_declared, column_of, has_index, has_root, keys_differ, position_of};
use crate::part::Part;
use crate::table::{Column, Format};
use crate::words::root_number;
use column_values::{greatest_length, is_long_kind};
use page_source::NoMemory;
use std::alloc::Global;

/// The clustered index and 15 others.
const MOST_INDEXES: usize = 16;

const MOST_KEYS: usize = 16;

/// The greatest lengths of a key's columns together, and of one of them in COMPACT.
const LONGEST_KEY: usize = 3072;

const LONGEST_COMPACT: usize = 767;

/// Whether the column alone may be in a key.
fn may_join(format: Format, clustered: bool, column: &Column) -> bool
    ensures { IsTrue result ↔ MayJoin format clustered column.now }
{
    if is_long_kind(column.kind) || (clustered && column.nullable) {
        return false;
    }
    match format {
        Format::Compact => greatest_length(column.kind) <= LONGEST_COMPACT,
        Format::Dynamic => true,
    }
}

/// The greatest length of a key with one more column; none where the column may not join.
fn longer_key(format: Format, clustered: bool, column: &Column, total: usize) -> Option<usize>
    requires { total ≤ 3072 }
    ensures { IsKeyStep format clustered total column.now result }
{
    let total = total + greatest_length(column.kind);
    if total > LONGEST_KEY || !may_join(format, clustered, column) {
        return None;
    }
    Some(total)
}

/// The column of this name.
fn declared<'a>(columns: &'a [Column], name: &[u8]) -> &'a Column
    requires { IsAmong columns.now name.now }
    ensures { column_named columns.now name.now ≡ Some result.now }
{
    match column_of(columns, name) {
        Some(column) => column,
        None => unreachable!(),
    }
}

/// Whether the columns that the words from a place on name make a key.
fn makes_key(format: Format, clustered: bool, columns: &[Column], line: &Words, from: usize) -> bool
    requires { All (IsAmong columns.now) (drop from line.now) }
    ensures { IsTrue result ↔ MakesKey format clustered (columns_named columns.now (drop from line.now)) }
{
    let mut total = 0;
    for i in from..line.len() {
        let column = declared(columns, line.at(i));
        let Some(longer) = longer_key(format, clustered, column, total) else {
            return false;
        };
        total = longer;
    }
    true
}

/// Whether the table has room for an index, and the index for its columns.
fn has_counts(part: &Part, line: &Words, from: usize) -> bool
    requires { from ≤ length line.now }
    ensures { IsTrue result ↔ HasCounts part.now (drop from line.now) }
{
    part.indexes().len() < MOST_INDEXES && line.len() - from <= MOST_KEYS
}

/// Whether no index has the name, and no column comes twice.
fn has_new_names(part: &Part, name: &[u8], line: &Words, from: usize) -> bool
    ensures { IsTrue result ↔ HasNewNames part.now name.now (drop from line.now) }
{
    !has_index(part.indexes(), name) && keys_differ(line, from)
}

/// Whether the columns may make a key of the part's next index.
fn has_key(part: &Part, line: &Words, from: usize) -> bool
    requires { All (IsDeclared part.now) (drop from line.now) }
    ensures { IsTrue result ↔ HasKey part.now (drop from line.now) }
{
    let clustered = part.indexes().len() == 0;
    makes_key(part.format(), clustered, part.columns(), line, from)
}

/// Whether no index has the root.
fn has_new_root(part: &Part, root: u32) -> bool
    ensures { IsTrue result ↔ IsNewRoot part.now (decimal root) }
{
    !has_root(part.indexes(), root)
}

/// The root on the line of an index, whose names are good: its number, and from a place on its columns.
pub(crate) fn check_key(
    part: &Part,
    line: &Words,
    from: usize,
    name: &[u8],
    number: &[u8],
) -> Result<u32, SchemaWhy>
    requires { from ≤ length line.now }
    ensures { MatchResult result
        (λ root. IsRoot root × (number.now ≡ decimal root)
        × KeyChecks part.now (record { name = name.now; root = number.now; keys = drop from line.now }) None)
        (λ why. KeyChecks part.now
        (record { name = name.now; root = number.now; keys = drop from line.now }) (Some why)) }
{
    let Some(root) = root_number(number) else {
        return Err(SchemaWhy::Number);
    };
    if !has_counts(part, line, from) {
        return Err(SchemaWhy::Count);
    }
    if !has_new_names(part, name, line, from) {
        return Err(SchemaWhy::Twice);
    }
    if !are_declared(part.columns(), line, from) {
        return Err(SchemaWhy::Unknown);
    }
    if !has_key(part, line, from) {
        return Err(SchemaWhy::Key);
    }
    if !has_new_root(part, root) {
        return Err(SchemaWhy::Root);
    }
    Ok(root)
}

/// The place of the column of this name.
fn place_of(columns: &[Column], name: &[u8]) -> u16
    requires few { length columns.now ≤ 64 }
    requires known { IsAmong columns.now name.now }
    ensures { IsPlaceOf columns.now name.now result }
{
    match position_of(columns, name) {
        Some(place) => place as u16,
        None => unreachable!(),
    }
}

/// The places of the columns that the words from a place on name.
pub(crate) fn places_of(
    alloc: Global,
    columns: &[Column],
    line: &Words,
    from: usize,
) -> Result<Vec<u16>, NoMemory>
    requires few { length columns.now ≤ 64 }
    requires known { All (IsAmong columns.now) (drop from line.now) }
    ensures { IfOk result (λ list. ArePlacesOf columns.now (drop from line.now) list.items) }
{
    let mut list = Vec::new(alloc);
    for i in from..line.len() {
        list.push(place_of(columns, line.at(i)))?;
    }
    Ok(list)
}
