//! The fields of the indexes of two tables.

use column_values::{Field, FieldList, FieldType};
use schema_text::Schema;
use std::alloc::Global;
use std::process::Abort;
use std::test::Fail;

/// Adds a field: R the row id, T the transaction id, P the roll pointer, N the child page, C a column, each with ?
/// where it is nullable and * where it may leave the page.
fn push_field(text: &mut String, field: &Field) -> Result<(), Fail> {
    text.push_str(match field.kind {
        FieldType::RowId => "R",
        FieldType::TrxId => "T",
        FieldType::RollPointer => "P",
        FieldType::Child => "N",
        FieldType::Column(_) => "C",
    })?;
    text.push_str(if field.nullable { "?" } else { "" })?;
    text.push_str(if field.may_leave { "*" } else { "" })?;
    Ok(())
}

/// The fields of a list; and how many are nullable, and the key's.
fn list_text(list: &FieldList, alloc: Global) -> Result<String, Fail> {
    let mut text = String::new(alloc);
    for field in list.fields() {
        push_field(&mut text, field)?;
    }
    let counts = format!(in alloc; " {} {}", list.nullable(), list.keys())?;
    text.push_str(counts.as_str())?;
    Ok(text)
}

/// The fields of an index as a text; an empty one if there is no such index.
fn fields_text(schema: &Schema, alloc: Global, index: usize, leaf: bool) -> Result<String, Fail> {
    if index >= schema.indexes().len() {
        return Ok(String::new(alloc));
    }
    list_text(&schema.fields(alloc, index, leaf)?, alloc)
}

/// Fails the test where one of these indexes of a schema, on its leaves or above them, has other fields.
fn expect_fields(
    rt: &impl Abort,
    alloc: Global,
    text: &[u8],
    wanted: [(usize, bool, &str); 4],
) -> Result<(), Fail> {
    let schema = Schema::read(alloc, text)?;
    for (index, leaf, fields) in wanted {
        let found = fields_text(&schema, alloc, index, leaf)?;
        assert!(rt; found.as_str() == fields, "{index} {leaf}");
    }
    Ok(())
}

#[test]
fn lists_the_fields_of_each_index(rt: HostRuntime) -> Result<(), Fail> {
    expect_fields(
        &rt,
        rt.alloc(),
        b"table orders dynamic\ncolumn id int unsigned notnull\ncolumn day date null\ncolumn who varchar 40 null\n\
            column note text null\nclustered root 3 id\nindex by_who root 4 who id\n",
        [
            (0, true, "CTPC?C?C?* 3 1"),
            (0, false, "CN 3 1"),
            (1, true, "C?C 1 2"),
            (1, false, "C?CN 1 2"),
        ],
    )?;
    expect_fields(
        &rt,
        rt.alloc(),
        b"table t compact\ncolumn a varchar 300 null\ncolumn b int null\nclustered root 3\nindex i root 4 b\n",
        [
            (0, true, "RTPC?*C? 2 1"),
            (0, false, "RN 2 1"),
            (1, true, "C?R 1 2"),
            (1, false, "C?RN 1 2"),
        ],
    )
}
