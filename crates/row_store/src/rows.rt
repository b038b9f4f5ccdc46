//! Reading the text of rows, line by line.

ghost use Rattle.std.specs.Prelude.{◌≡◌, ◌+◌, ◌<◌, ◌≤◌, ◌^◌};
ghost use Rattle.row_store.specs.ReadRows.{ReadsRows};
ghost use Rattle.row_store.specs.calls.Lines.{ChecksLine};
ghost use Rattle.row_store.specs.calls.Stops.{stop_behind};

use crate::line_reader::{LONGEST_LINE, LineReader, NextLine};
use crate::next_row::add_row;
use crate::row_fields::RowFields;
use crate::row_shape::RowShape;
use crate::stop::{RowStop, RowsStop, RowsWhy};
use crate::stored::StoredRows;
use page_source::ByteSource;
use row_text::laws::lines_are_unique;
use schema_text::Schema;
use std::alloc::Global;

/// How many bytes the text of rows may have.
const LONGEST_ROWS: usize = 4_294_967_296;

/// Tests a line by its bytes alone, behind so many bytes of the text. Answers where it ends.
pub(crate) fn check_line(line: NextLine, taken: usize) -> Result<usize, RowsWhy>
    requires size { line.size < 2 ^ 63 }
    requires taken { taken ≤ 4294967296 }
    ensures { ChecksLine line taken result }
{
    let size = line.size + usize::from(line.feed);
    if size > LONGEST_LINE {
        return Err(RowsWhy::Long);
    }
    if taken + size > LONGEST_ROWS {
        return Err(RowsWhy::Input);
    }
    if !line.feed {
        return Err(RowsWhy::Line);
    }
    Ok(taken + size)
}

/// What the reading stops at where the row behind so many others does.
fn stop_behind(count: usize, stop: RowStop) -> RowsStop
    requires { count + 1 < 2 ^ 32 }
    ensures { result ≡ stop_behind count stop }
{
    match stop {
        RowStop::Refused(why) => RowsStop::Refused {
            line: count as u32 + 1,
            why,
        },
        RowStop::Memory => RowsStop::Memory,
    }
}

/// Reads the rows of a text to its end, or to the first line that is refused.
pub fn read_rows<R: ByteSource>(
    alloc: Global,
    text: &mut R,
    schema: &Schema,
) -> Result<StoredRows, RowsStop>
    ensures { ReadsRows R.ByteSource schema.now text.old text.new result }
{
    lines_are_unique();
    let shape = RowShape::of(alloc, schema)?;
    let mut lines = LineReader::new(alloc);
    let mut row = RowFields::new(alloc);
    let mut rows = StoredRows::new(alloc);
    let mut taken = 0;
    while let Some(line) = lines.next(text)? {
        let count = rows.count();
        let end = match check_line(line, taken) {
            Ok(end) => end,
            Err(why) => return Err(stop_behind(count, RowStop::Refused(why))),
        };
        let bytes = lines.line(line.size);
        match add_row(alloc, schema, &shape, bytes, &mut row, &mut rows) {
            Ok(()) => {}
            Err(stop) => return Err(stop_behind(count, stop)),
        }
        lines.take(line);
        taken = end;
    }
    Ok(rows)
}
