//! The commands `line` and `key`: the line of a row, and the text of a key, read and written back.

use crate::report::Report;
use case_files::error::LineError;
use case_files::named_files::{NamedFiles, copied};
use case_files::text::{decode, put_number};
use page_source::{ByteList, Fails, MemorySink};
use row_text::{Row, RowError, read_key, read_row, write_row};
use schema_text::{Schema, SchemaError};
use std::alloc::Global;

/// Which is read: the line of a row, or the text of a key.
#[derive(Clone, Copy)]
pub enum RowText {
    Line,
    Key,
}

/// `line SCHEMA = TEXT` or `key SCHEMA = TEXT`.
#[derive(Drop)]
pub struct RowCase<'a> {
    what: RowText,
    schema: &'a str,
    text: ByteList,
}

impl<'a> RowCase<'a> {
    /// Reads what stands behind the first word.
    pub fn read(alloc: Global, what: RowText, rest: &'a str) -> Result<RowCase<'a>, LineError> {
        let (schema, text) = rest.split_once(" =").ok_or(LineError::Word)?;
        let text = text.strip_prefix(' ').unwrap_or(text);
        Ok(RowCase {
            what,
            schema,
            text: decode(alloc, text)?,
        })
    }

    pub fn run(
        &self,
        alloc: Global,
        files: &NamedFiles,
        answer: &str,
        report: &mut Report,
    ) -> Result<(), LineError> {
        let schema = Schema::read(alloc, files.schema(self.schema)?).map_err(name_error)?;
        let came = match self.what {
            RowText::Line => answer_of_line(alloc, &schema, self.text.bytes())?,
            RowText::Key => answer_of_key(alloc, &schema, self.text.bytes())?,
        };
        report.compare(b"", answer.as_bytes(), came.bytes())
    }
}

/// A line names a schema whose text is refused.
fn name_error(_: SchemaError) -> LineError {
    LineError::Name
}

/// More than a row takes here.
fn room_for(text: &[u8]) -> usize {
    text.len().saturating_mul(4).saturating_add(1000)
}

/// `same` where the line is that of a row, and what is written of the row is the line, `refused` where it is no row's.
fn answer_of_line(alloc: Global, schema: &Schema, line: &[u8]) -> Result<ByteList, LineError> {
    match read_row(alloc, schema, line) {
        Err(error) => refused(alloc, error),
        Ok(row) => {
            let mut sink = MemorySink::new(alloc, room_for(line), Fails::of(alloc, &[])?)?;
            if write_row(&mut sink, schema, &row).is_err() {
                return Ok(copied(alloc, b"sink")?);
            }
            let written = sink.bytes();
            let same = written.strip_suffix(b"\n".as_slice()) == Some(line);
            Ok(copied(alloc, if same { b"same" } else { written })?)
        }
    }
}

fn refused(alloc: Global, error: RowError) -> Result<ByteList, LineError> {
    match error {
        RowError::Refused => Ok(copied(alloc, b"refused")?),
        RowError::Memory => Ok(copied(alloc, b"memory")?),
    }
}

/// `same` where the text is that of a key, and of a row of a table of the key's columns alone; what is written of that
/// row has to be the text, and its values have to be the key's.
fn answer_of_key(alloc: Global, schema: &Schema, text: &[u8]) -> Result<ByteList, LineError> {
    match read_key(alloc, schema, text) {
        Ok(key) => answer_of_values(alloc, schema, text, &key),
        Err(error) => refused(alloc, error),
    }
}

/// What came of a key, which was read as these values: its text if the row of a table with its columns has them.
fn answer_of_values(
    alloc: Global,
    schema: &Schema,
    text: &[u8],
    key: &Row,
) -> Result<ByteList, LineError> {
    let table = key_table(alloc, schema)?;
    let line = line_with(alloc, text)?;
    let Ok(row) = read_row(alloc, &table, line.bytes()) else {
        return Ok(copied(alloc, b"accepted, but no row has it")?);
    };
    if !are_alike(alloc, key, &row)? {
        return spelled(alloc, key);
    }
    answer_of_line(alloc, &table, line.bytes())
}

/// Whether two rows have the same values.
fn are_alike(alloc: Global, a: &Row, b: &Row) -> Result<bool, LineError> {
    let one = spelled(alloc, a)?;
    let other = spelled(alloc, b)?;
    Ok(one.bytes() == other.bytes())
}

/// The values of a row as a text.
fn spelled(alloc: Global, row: &Row) -> Result<ByteList, LineError> {
    let text = format!(in alloc; "{row:?}")?;
    Ok(copied(alloc, text.as_bytes())?)
}

/// The line of a row with these values.
fn line_with(alloc: Global, values: &[u8]) -> Result<ByteList, LineError> {
    let mut line = copied(alloc, b"INSERT INTO `k` VALUES (")?;
    line.extend(values)?;
    line.extend(b");")?;
    Ok(line)
}

/// The table of the columns of the clustered key, in their order; where rows have a hidden id, of one number. Of the
/// six bytes of that id nothing is said here: `refused` comes before.
fn key_table(alloc: Global, schema: &Schema) -> Result<Schema, LineError> {
    let printed = schema.print(alloc)?;
    let mut columns = ByteList::new(alloc);
    let mut names = ByteList::new(alloc);
    for index in schema.indexes().iter().take(1) {
        for place in index.columns.items() {
            push_column(
                &mut columns,
                &mut names,
                printed.bytes(),
                usize::from(*place),
            )?;
        }
    }
    if names.bytes().is_empty() {
        columns.extend(b"column id bigint unsigned notnull\n")?;
        names.extend(b" id")?;
    }
    let mut text = copied(alloc, b"table k dynamic\n")?;
    text.extend(columns.bytes())?;
    text.extend(b"clustered root 3")?;
    text.extend(names.bytes())?;
    text.extend(b"\n")?;
    Schema::read(alloc, text.bytes()).map_err(name_error)
}

/// Adds the line of the column with this number, and its name.
fn push_column(
    columns: &mut ByteList,
    names: &mut ByteList,
    printed: &[u8],
    place: usize,
) -> Result<(), LineError> {
    let mut lines = printed.split(|byte| *byte == b'\n').skip(1);
    let line = lines.nth(place).ok_or(LineError::Name)?;
    let mut words = line.split(|byte| *byte == b' ').skip(1);
    let name = words.next().ok_or(LineError::Name)?;
    columns.extend(line)?;
    columns.extend(b"\n")?;
    names.extend(b" ")?;
    names.extend(name)?;
    Ok(())
}
