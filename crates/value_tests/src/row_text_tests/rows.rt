//! Lines and keys that are read, and lines that are written again. Lines of every type and refusal are cases as text.

ghost use Rattle.row_text.specs.Line.{IsTableRow};

use page_source::{Fails, MemorySink};
use row_text::{Row, RowError, read_key, read_row, write_row};
use schema_text::Schema;
use std::alloc::Global;
use std::test::Fail;

/// The schema of a table with these columns.
fn table_of(alloc: Global, columns: &str, key: &str) -> Result<Schema, Fail> {
    let text = format!(in alloc; "table t dynamic\n{columns}clustered root 3{key}\n")?;
    Ok(Schema::read(alloc, text.as_bytes())?)
}

/// What is written of the row.
fn written(alloc: Global, table: &Schema, row: &Row) -> Result<MemorySink, Fail>
    requires { IsTableRow table.now row.now }
{
    let mut sink = MemorySink::new(alloc, 1000, Fails::of(alloc, &[])?)?;
    write_row(&mut sink, table, row)?;
    Ok(sink)
}

/// Whether the line is that of a row of the table, which is then written as it was read.
fn is_row_line(alloc: Global, table: &Schema, line: &[u8]) -> Result<bool, Fail> {
    match read_row(alloc, table, line) {
        Ok(row) => Ok(written(alloc, table, &row)?.bytes().strip_suffix(b"\n") == Some(line)),
        Err(RowError::Refused) => Ok(false),
        Err(RowError::Memory) => Err(Fail::from("memory")),
    }
}

/// A column of each kind of type.
const COLUMNS: &str =
    "column a bigint notnull\ncolumn b bigint unsigned notnull\ncolumn c decimal 5 2 null\n\
    column d date null\ncolumn e datetime 3 null\ncolumn f timestamp 0 null\ncolumn g year null\n\
    column h char 3 null\ncolumn i varchar 9 null\ncolumn j text utf8mb4 null\n\
    column k binary 2 null\ncolumn l varbinary 3 null\ncolumn m blob null\n";

/// A row of them.
const LINE: &[u8] =
    b"INSERT INTO `t` VALUES (-9223372036854775808,18446744073709551615,-0.05,'9999-12-31',\
    '2012-01-01 00:00:00.250','2038-01-19 03:14:07',2155,'a,)','\\0\\'\\Z ','\xC3\xA9',0x00ff,'',0x61);";

#[test]
fn reads_a_row_of_every_kind_of_type(rt: HostRuntime) -> Result<(), Fail> {
    let table = table_of(rt.alloc(), COLUMNS, "")?;
    assert!(rt; is_row_line(rt.alloc(), &table, LINE)?);
    Ok(())
}

/// Lines, and whether they are those of a row.
const LINES: [(&[u8], bool); 6] = [
    (b"INSERT INTO `t` VALUES (1,'a');", true),
    (b"INSERT INTO `t` VALUES (1,NULL);", true),
    (b"INSERT INTO `t` VALUES (NULL,NULL);", false),
    (b"INSERT INTO `t` VALUES (1,'a ');", false),
    (b"INSERT INTO `t` VALUES (1);", false),
    (b"INSERT INTO `u` VALUES (1,'a');", false),
];

#[test]
fn refuses_lines_of_no_row(rt: HostRuntime) -> Result<(), Fail> {
    let columns = "column id int notnull\ncolumn name char 3 null\n";
    let table = table_of(rt.alloc(), columns, " id")?;
    for (line, is) in LINES {
        assert!(rt; is_row_line(rt.alloc(), &table, line)? == is);
    }
    Ok(())
}

/// Whether the text is that of a key.
fn is_key(alloc: Global, table: &Schema, text: &[u8]) -> bool {
    read_key(alloc, table, text).is_ok()
}

const TWO: &str = "column a int notnull\ncolumn b date notnull\n";

#[test]
fn reads_keys_in_their_order(rt: HostRuntime) -> Result<(), Fail> {
    let table = table_of(rt.alloc(), TWO, " b a")?;
    assert!(rt; is_key(rt.alloc(), &table, b"'2012-01-01',5"));
    assert!(rt; !is_key(rt.alloc(), &table, b"5,'2012-01-01'"));
    Ok(())
}

#[test]
fn reads_hidden_row_ids(rt: HostRuntime) -> Result<(), Fail> {
    let table = table_of(rt.alloc(), TWO, "")?;
    assert!(rt; is_key(rt.alloc(), &table, b"281474976710655"));
    assert!(rt; !is_key(rt.alloc(), &table, b"281474976710656"));
    Ok(())
}
