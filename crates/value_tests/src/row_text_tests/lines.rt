//! Lines that are written in pieces: values with the bytes that spell them, one of each kind, long ones in parts, a
//! sink that fails, and the most values. Others are lines of the crate `cases`.

ghost use Rattle.std.specs.Prelude.{◌≡◌, ◌≤◌, true};
ghost use Rattle.row_text.specs.Writer.{is_long};

use column_values::{ColumnType, is_value};
use page_source::{ByteList, Failed, Fails, MemorySink, NoMemory};
use row_text::RowWriter;
use schema_text::Schema;
use std::alloc::Global;
use std::process::Abort;
use std::test::Fail;

/// A table of one column, of the type with these words.
fn table_of(alloc: Global, kind: &str) -> Result<Schema, Fail> {
    let text = format!(in alloc; "table t dynamic\ncolumn v {kind} null\nclustered root 3\n")?;
    Ok(Schema::read(alloc, text.as_bytes())?)
}

fn sink_of(alloc: Global, fails: &[u64]) -> Result<MemorySink, Fail> {
    Ok(MemorySink::new(alloc, 1000, Fails::of(alloc, fails)?)?)
}

/// Puts the line of the value that these bytes spell in that column.
fn put_line(sink: &mut MemorySink, table: &Schema, bytes: &[u8]) -> Result<(), Failed> {
    let mut writer = RowWriter::begin(sink, table)?;
    if let Some(column) = table.columns().first()
        && is_value(&column.kind, bytes)
    {
        writer.value(sink, &column.kind, bytes)?;
    }
    writer.end(sink)
}

/// What stands in the parentheses of a line.
fn values_in(line: &[u8]) -> Option<&[u8]> {
    line.strip_prefix(b"INSERT INTO `t` VALUES (")?
        .strip_suffix(b");\n")
}

/// The line of the value that the bytes spell, in a table of one column.
fn line_of(alloc: Global, kind: &str, bytes: &[u8]) -> Result<MemorySink, Fail> {
    let mut sink = sink_of(alloc, &[])?;
    put_line(&mut sink, &table_of(alloc, kind)?, bytes)?;
    Ok(sink)
}

/// Values of columns with these types: their bytes and their texts.
const VALUES: [(&str, &[u8], &[u8]); 6] = [
    ("smallint unsigned", &[0xFF, 0xFF], b"65535"),
    ("decimal 5 2", &[0x7F, 0xFF, 0xFA], b"-0.05"),
    ("date", &[0x8F, 0xB8, 0x21], b"'2012-01-01'"),
    (
        "timestamp 6",
        &[0x38, 0xBB, 0xC9, 0xF0, 0, 0, 0x01],
        b"'2000-02-29 13:30:24.000001'",
    ),
    ("varchar 20", b"it's \xFF", b"'it\\'s \xFF'"),
    ("varbinary 20", b"\x00\xFF", b"0x00ff"),
];

#[test]
fn writes_values(rt: HostRuntime) -> Result<(), Fail> {
    for (kind, bytes, text) in VALUES {
        let line = line_of(rt.alloc(), kind, bytes)?;
        assert!(rt; values_in(line.bytes()) == Some(text), "{kind}");
    }
    Ok(())
}

/// Puts a line of one long value, in parts of so many bytes.
fn put_parts(
    sink: &mut MemorySink,
    table: &Schema,
    kind: &ColumnType,
    bytes: &[u8],
    size: usize,
) -> Result<(), Failed>
    requires long { is_long kind.now ≡ true }
    requires some { 1 ≤ size }
{
    let mut writer = RowWriter::begin(sink, table)?;
    writer.start_long(sink, kind, bytes.len() as u64)?;
    let mut rest = bytes;
    while !rest.is_empty() {
        let (part, more) = rest.split_at(rest.len().min(size));
        writer.part(sink, kind, part)?;
        rest = more;
    }
    writer.end_long(sink, kind, bytes.len() as u64)?;
    writer.end(sink)
}

/// A type whose values may come in parts.
fn long_type(is_text: bool) -> ColumnType
    ensures { is_long result ≡ true }
{
    if is_text {
        ColumnType::Utf8Text { n: 255 }
    } else {
        ColumnType::Blob { n: 255 }
    }
}

/// Long values: whether they are texts, their bytes and their texts.
const LONG_VALUES: [(bool, &[u8], &[u8]); 4] = [
    (false, b"", b"''"),
    (false, b"\x00\x01\xFF", b"0x0001ff"),
    (true, b"", b"''"),
    (
        true,
        b"a\xC3\xA9\n\xE2\x82\xAC",
        b"'a\xC3\xA9\\n\xE2\x82\xAC'",
    ),
];

/// The line of a long value that comes in parts of so many bytes.
fn line_in_parts(
    alloc: Global,
    is_text: bool,
    bytes: &[u8],
    size: usize,
) -> Result<MemorySink, Fail>
    requires { 1 ≤ size }
{
    let mut sink = sink_of(alloc, &[])?;
    let table = table_of(alloc, "text")?;
    put_parts(&mut sink, &table, &long_type(is_text), bytes, size)?;
    Ok(sink)
}

fn writes_parts_of(rt: &impl Abort, alloc: Global, size: usize) -> Result<(), Fail>
    requires { 1 ≤ size }
{
    for (is_text, bytes, text) in LONG_VALUES {
        let line = line_in_parts(alloc, is_text, bytes, size)?;
        assert!(rt; values_in(line.bytes()) == Some(text), "{size}");
    }
    Ok(())
}

#[test]
fn writes_long_values_in_parts(rt: HostRuntime) -> Result<(), Fail> {
    for size in [1, 2, 100] {
        writes_parts_of(&rt, rt.alloc(), size)?;
    }
    Ok(())
}

/// Puts a row of one value, one null and one long value.
fn put_row(sink: &mut MemorySink, table: &Schema) -> Result<(), Failed> {
    let (year, long) = (ColumnType::Year, ColumnType::Varchar { n: 9 });
    let mut writer = RowWriter::begin(sink, table)?;
    if is_value(&year, &[0x70]) {
        writer.value(sink, &year, &[0x70])?;
    }
    writer.null(sink)?;
    writer.start_long(sink, &long, 2)?;
    writer.part(sink, &long, b"a'")?;
    writer.end_long(sink, &long, 2)?;
    writer.end(sink)
}

/// The line of that row.
const ROW: &[u8] = b"INSERT INTO `t` VALUES (2012,NULL,'a\\'');\n";

/// What stands in the sink behind that row, where these of its calls fail, and how the last one ended.
fn row_line(alloc: Global, fails: &[u64]) -> Result<(MemorySink, Result<(), Failed>), Fail> {
    let mut sink = sink_of(alloc, fails)?;
    let end = put_row(&mut sink, &table_of(alloc, "year")?);
    Ok((sink, end))
}

#[test]
fn writes_a_row(rt: HostRuntime) -> Result<(), Fail> {
    let (line, end) = row_line(rt.alloc(), &[])?;
    assert!(rt; end == Ok(()) && line.bytes() == ROW);
    Ok(())
}

#[test]
fn writes_a_front_where_the_sink_fails(rt: HostRuntime) -> Result<(), Fail> {
    for call in 1..9 {
        let (front, end) = row_line(rt.alloc(), &[call])?;
        assert!(rt;
            end == Err(Failed) && ROW.starts_with(front.bytes()),
            "{call}"
        );
    }
    Ok(())
}

/// Puts a line of 64 nulls.
fn put_nulls(sink: &mut MemorySink, table: &Schema) -> Result<(), Failed> {
    let mut writer = RowWriter::begin(sink, table)?;
    for _ in 0..64u32 {
        writer.null(sink)?;
    }
    writer.end(sink)
}

/// The texts of 64 nulls, between commas.
fn nulls(alloc: Global) -> Result<ByteList, NoMemory> {
    let mut text = ByteList::new(alloc);
    text.extend(b"NULL")?;
    for _ in 1..64 {
        text.extend(b",NULL")?;
    }
    Ok(text)
}

#[test]
fn writes_64_values(rt: HostRuntime) -> Result<(), Fail> {
    let text = nulls(rt.alloc())?;
    let mut sink = sink_of(rt.alloc(), &[])?;
    put_nulls(&mut sink, &table_of(rt.alloc(), "date")?)?;
    assert!(rt; values_in(sink.bytes()) == Some(text.bytes()));
    Ok(())
}
