//! The schema of the made table, and the lines of its rows.

ghost use Rattle.std.specs.Prelude.{◌≡◌, ◌≤◌, ◌++◌, IfOk, OnOk};
ghost use Rattle.row_text.specs.Line.{IsTableRow, line_of, text_of};
ghost use Rattle.sample_table.specs.Sample.{sample_table, sample_rows};

use crate::objects::GrowingSink;
use crate::row::row_of;
use page_source::{ByteList, NoMemory};
use row_text::{Row, write_row};
use schema_text::laws::texts_read_back;
use schema_text::{Schema, SchemaError};
use std::alloc::Global;

const SCHEMA: &[u8] = b"table sample dynamic\n\
    column id int unsigned notnull\n\
    column tag varchar 20 null\n\
    column note text null\n\
    clustered root 3 id\n\
    index by_tag root 4 tag\n";

/// The schema of the made table.
pub(crate) fn schema_of(alloc: Global) -> Result<Schema, NoMemory>
    ensures { IfOk result (λ schema. schema ≡ sample_table) }
{
    texts_read_back();
    match Schema::read(alloc, SCHEMA) {
        Ok(schema) => Ok(schema),
        Err(SchemaError::Memory) => Err(NoMemory),
        Err(SchemaError::Refused { .. }) => unreachable!(),
    }
}

/// Adds the line of a row.
fn add_line(lines: &mut GrowingSink, schema: &Schema, row: &Row) -> Result<(), NoMemory>
    requires { IsTableRow schema.now row.now }
    ensures { OnOk result (lines.new.bytes ≡ lines.old.bytes ++ line_of schema.now row.now) }
{
    match write_row(lines, schema, row) {
        Ok(()) => Ok(()),
        Err(_) => Err(NoMemory),
    }
}

/// The lines of so many rows.
pub(crate) fn text_of(alloc: Global, schema: &Schema, rows: u32) -> Result<ByteList, NoMemory>
    requires table { schema.now ≡ sample_table }
    requires count { rows ≤ 200000 }
    ensures { IfOk result (λ text. text ≡ text_of sample_table (sample_rows rows)) }
{
    let mut lines = GrowingSink::new(alloc);
    for i in 0..rows {
        let row = row_of(alloc, i + 1)?;
        add_line(&mut lines, schema, &row)?;
    }
    Ok(lines.bytes)
}
