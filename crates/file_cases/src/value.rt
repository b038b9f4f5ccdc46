//! The command `value`: a value of a column of any type, in a row with the key 1.

use crate::report::Report;
use crate::run::{Hitch, Ready, Task};
use case_files::edit::Edit;
use case_files::error::LineError;
use case_files::hex::bytes_of;
use case_files::named_files::{NamedFiles, copied, edited};
use case_files::plan::Plan;
use case_files::text::decode;
use page_source::ByteList;
use std::alloc::Global;

/// The answer of a check of a file whose one record has a sound value.
const CHECKED: &[u8] = b"pages=6 used=4 rows=1 deleted=0 unreached=0";

/// The most bytes of the record's front and of its column.
const MOST: usize = 8000;

/// `value TYPE NULLITY = FRONT:BYTES`, without its first word.
#[derive(Drop)]
pub struct ValueCase<'a> {
    kind: &'a str,
    front: ByteList,
    bytes: ByteList,
}

impl<'a> ValueCase<'a> {
    pub fn read(alloc: Global, what: &'a str) -> Result<ValueCase<'a>, LineError> {
        let (kind, record) = what.split_once(" = ").ok_or(LineError::Word)?;
        let (front, bytes) = record.split_once(':').ok_or(LineError::Word)?;
        Ok(ValueCase {
            kind,
            front: bytes_of(alloc, front)?,
            bytes: bytes_of(alloc, bytes)?,
        })
    }

    /// Checks and dumps the file with the one row.
    pub fn run(
        &self,
        alloc: Global,
        files: &NamedFiles,
        answer: &str,
        report: &mut Report,
    ) -> Result<(), LineError> {
        let schema = schema_with(alloc, self.kind)?;
        let base = files.file("A")?;
        let mut plan = Plan::of(alloc, "A");
        self.push_edits(alloc, &mut plan.edits)?;
        let over = edited(alloc, &base.pages, &plan)?;
        let ready = Ready::of(base, over, schema.bytes());
        let is_broken = answer.starts_with("broken ") || answer.starts_with("schema ");
        let wanted = decode(alloc, answer)?;
        if is_broken {
            expect(alloc, &ready, Task::Check, wanted.bytes(), report)?;
            return expect(alloc, &ready, Task::Dump, wanted.bytes(), report);
        }
        expect(alloc, &ready, Task::Check, CHECKED, report)?;
        let line = line_of(alloc, wanted.bytes())?;
        expect(alloc, &ready, Task::Dump, line.bytes(), report)
    }

    /// The one record: the null bits and lengths, the header, the key and the hidden fields, and the column. It leads
    /// to the supremum, and the infimum to it.
    fn push_edits(&self, alloc: Global, edits: &mut Vec<Edit>) -> Result<(), LineError> {
        let (front, column) = (self.front.bytes(), self.bytes.bytes());
        if front.len() > MOST || column.len() > MOST {
            return Err(LineError::Place);
        }
        let origin = front.len() as u16 + 125;
        let top = column.len() as u16 + origin + 17;
        let mut record = copied(alloc, front)?;
        record.extend(b"\0\0\x10")?;
        record.extend(&0u16.wrapping_sub(origin - 112).to_be_bytes())?;
        record.extend(b"\x80\0\0\x01")?;
        record.extend(&[0; 13])?;
        record.extend(column)?;
        let pieces: [(usize, &[u8]); 5] = [
            (40, &top.to_be_bytes()),
            (42, b"\x80\x03"),
            (54, b"\0\x01"),
            (97, &(origin - 99).to_be_bytes()),
            (107, b"\x02"),
        ];
        for (at, bytes) in pieces {
            edits.push(put(at, copied(alloc, bytes)?))?;
        }
        edits.push(put(120, record))?;
        Ok(())
    }
}

/// An edit of the root page.
fn put(at: usize, bytes: ByteList) -> Edit {
    Edit::Put { page: 3, at, bytes }
}

/// The schema of a table with a key and a column of this type.
fn schema_with(alloc: Global, kind: &str) -> Result<ByteList, LineError> {
    let mut text = copied(alloc, b"table t dynamic\ncolumn id int notnull\ncolumn v ")?;
    text.extend(kind.as_bytes())?;
    text.extend(b"\nclustered root 3 id\n")?;
    Ok(text)
}

/// The line of the row.
fn line_of(alloc: Global, value: &[u8]) -> Result<ByteList, LineError> {
    let mut line = copied(alloc, b"INSERT INTO `t` VALUES (1,")?;
    line.extend(value)?;
    line.extend(b");\n")?;
    Ok(line)
}

/// Runs the task, and compares.
fn expect(
    alloc: Global,
    ready: &Ready<'_>,
    task: Task<'_>,
    wanted: &[u8],
    report: &mut Report,
) -> Result<(), LineError> {
    let outcome = ready.run(alloc, task, Hitch::None)?;
    let came = outcome.said_as(alloc, wanted, b"")?;
    report.compare(task.which(), wanted, came.bytes())
}
