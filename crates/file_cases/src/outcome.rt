//! How a call ended, and the words for it.

use case_files::error::LineError;
use case_files::text::{put_hex, put_number};
use cross_index::{CrossStop, Crossed};
use fil_frame::crc32c;
use image_listing::ListStop;
use key_lookup::GetStop;
use page_source::{ByteList, Fault, Halt, NoMemory, Stop};
use salvage_model::{SalvageStop, Saved};
use schema_text::{SchemaError, SchemaWhy};
use sql_dump::DumpStop;
use std::alloc::Global;
use table_check::Checked;

/// What ends a call before it is done.
#[derive(Clone, Copy)]
pub enum End {
    Broken(Fault),
    Source,
    Sink,
    Memory,
    Schema { line: u32, why: SchemaWhy },
    /// An index has no entry for this row.
    Missing { index: u32, row: u64 },
    /// An entry on this page is of no row.
    Extra { index: u32, page: u32 },
    /// The text is that of no key.
    Key,
    /// No row has the key.
    Absent,
    /// No id was given, and the root's page tells none.
    Root,
    /// The sink for what is lost failed.
    Losses,
}

impl From<NoMemory> for End {
    fn from(_: NoMemory) -> Self {
        End::Memory
    }
}

impl From<Stop> for End {
    fn from(stop: Stop) -> Self {
        match stop {
            Stop::Broken(fault) => End::Broken(fault),
            Stop::Source => End::Source,
            Stop::Memory => End::Memory,
        }
    }
}

impl From<Halt> for End {
    fn from(halt: Halt) -> Self {
        match halt {
            Halt::Broken(fault) => End::Broken(fault),
            Halt::Source => End::Source,
        }
    }
}

impl From<DumpStop> for End {
    fn from(stop: DumpStop) -> Self {
        match stop {
            DumpStop::Broken(fault) => End::Broken(fault),
            DumpStop::Source => End::Source,
            DumpStop::Sink => End::Sink,
            DumpStop::Memory => End::Memory,
        }
    }
}

impl From<CrossStop> for End {
    fn from(stop: CrossStop) -> Self {
        match stop {
            CrossStop::Broken(fault) => End::Broken(fault),
            CrossStop::Missing { index, row } => End::Missing { index, row },
            CrossStop::Extra { index, page } => End::Extra { index, page },
            CrossStop::Source => End::Source,
            CrossStop::Memory => End::Memory,
        }
    }
}

impl From<GetStop> for End {
    fn from(stop: GetStop) -> Self {
        match stop {
            GetStop::Refused => End::Key,
            GetStop::Absent => End::Absent,
            GetStop::Broken(fault) => End::Broken(fault),
            GetStop::Source => End::Source,
            GetStop::Sink => End::Sink,
            GetStop::Memory => End::Memory,
        }
    }
}

impl From<SalvageStop> for End {
    fn from(stop: SalvageStop) -> Self {
        match stop {
            SalvageStop::Root => End::Root,
            SalvageStop::Changed(fault) => End::Broken(fault),
            SalvageStop::Source => End::Source,
            SalvageStop::Sink => End::Sink,
            SalvageStop::Losses => End::Losses,
            SalvageStop::Memory => End::Memory,
        }
    }
}

impl From<ListStop> for End {
    fn from(stop: ListStop) -> Self {
        match stop {
            ListStop::Source => End::Source,
            ListStop::Sink => End::Sink,
            ListStop::Memory => End::Memory,
        }
    }
}

impl From<SchemaError> for End {
    fn from(error: SchemaError) -> Self {
        match error {
            SchemaError::Refused { line, why } => End::Schema { line, why },
            SchemaError::Memory => End::Memory,
        }
    }
}

impl End {
    /// Adds the line that the program writes on the standard error, without its line feed.
    pub fn put(self, text: &mut ByteList) -> Result<(), NoMemory> {
        match self {
            End::Broken(fault) => put_fault(text, fault),
            End::Source => text.extend(b"source"),
            End::Sink => text.extend(b"sink"),
            End::Memory => text.extend(b"memory"),
            End::Schema { line, why } => {
                text.extend(b"schema line ")?;
                put_number(text, u64::from(line))?;
                text.extend(b" ")?;
                text.extend(word_of(why).as_bytes())
            }
            End::Missing { index, row } => put_difference(text, index, b" missing row ", row),
            End::Extra { index, page } => {
                put_difference(text, index, b" extra page ", u64::from(page))
            }
            End::Key => text.extend(b"key"),
            End::Absent => text.extend(b"absent"),
            End::Root => text.extend(b"root"),
            End::Losses => text.extend(b"losses"),
        }
    }
}

fn put_fault(text: &mut ByteList, fault: Fault) -> Result<(), NoMemory> {
    text.extend(b"broken ")?;
    put_number(text, u64::from(fault.rule.number()))?;
    text.extend(b" ")?;
    text.extend(fault.rule.name().as_bytes())?;
    text.extend(b" page ")?;
    put_number(text, u64::from(fault.page))
}

/// Adds the index that doesn't go with the rows, and what lacks or is too much.
fn put_difference(
    text: &mut ByteList,
    index: u32,
    what: &[u8],
    number: u64,
) -> Result<(), NoMemory> {
    text.extend(b"cross index ")?;
    put_number(text, u64::from(index))?;
    text.extend(what)?;
    put_number(text, number)
}

fn word_of(why: SchemaWhy) -> &'static str {
    match why {
        SchemaWhy::Size => "size",
        SchemaWhy::End => "end",
        SchemaWhy::Form => "form",
        SchemaWhy::Name => "name",
        SchemaWhy::Number => "number",
        SchemaWhy::Count => "count",
        SchemaWhy::Twice => "twice",
        SchemaWhy::Unknown => "unknown",
        SchemaWhy::Key => "key",
        SchemaWhy::Root => "root",
    }
}

/// How a command ended, and what it wrote.
#[derive(Drop)]
pub struct Outcome {
    pub end: Result<(), End>,
    pub written: ByteList,
}

impl Outcome {
    /// The outcome of a command that wrote nothing.
    pub fn stopped(alloc: Global, end: End) -> Outcome {
        Outcome {
            end: Err(end),
            written: ByteList::new(alloc),
        }
    }

    /// The words for an outcome, in the form in which the wanted ones stand: `ends` of any sound answer or broken
    /// rule, the length and the checksum of the text, or the text itself. What was written before a call failed has to
    /// be the front of the whole text.
    pub fn said_as(
        &self,
        alloc: Global,
        wanted: &[u8],
        whole: &[u8],
    ) -> Result<ByteList, LineError> {
        let mut text = ByteList::new(alloc);
        let written = self.written.bytes();
        match self.end {
            Ok(()) | Err(End::Broken(_)) if wanted == b"ends".as_slice() => text.extend(b"ends")?,
            Ok(()) if wanted.starts_with(b"bytes=") => {
                put_length(&mut text, written.len() as u64, crc32c(written))?
            }
            Ok(()) if written.is_empty() => text.extend(b"nothing")?,
            Ok(()) => text.extend(written)?,
            Err(end) => {
                end.put(&mut text)?;
                if !may_be_written(end, written, whole) {
                    text.extend(b" behind ")?;
                    text.extend(written)?;
                }
            }
        }
        Ok(text)
    }
}

/// Whether this may have been written before a call ended so: nothing, and where an object failed, a front of the text.
fn may_be_written(end: End, written: &[u8], whole: &[u8]) -> bool {
    match end {
        End::Source | End::Sink => whole.starts_with(written),
        _ => written.is_empty(),
    }
}

/// Adds how many bytes a text has, and its checksum.
pub fn put_length(text: &mut ByteList, bytes: u64, sum: u32) -> Result<(), NoMemory> {
    text.extend(b"bytes=")?;
    put_number(text, bytes)?;
    text.extend(b" sum=")?;
    put_hex(text, sum)
}

/// Adds the numbers of a sound table.
pub fn put_checked(text: &mut ByteList, checked: &Checked) -> Result<(), NoMemory> {
    text.extend(b"pages=")?;
    put_number(text, u64::from(checked.pages))?;
    text.extend(b" used=")?;
    put_number(text, u64::from(checked.used))?;
    text.extend(b" rows=")?;
    put_number(text, checked.rows)?;
    text.extend(b" deleted=")?;
    put_number(text, checked.deleted)?;
    text.extend(b" unreached=")?;
    put_number(text, u64::from(checked.unreached))
}

/// Adds the numbers of indexes that go with their rows.
pub fn put_crossed(text: &mut ByteList, crossed: &Crossed) -> Result<(), NoMemory> {
    text.extend(b"indexes=")?;
    put_number(text, u64::from(crossed.indexes))?;
    text.extend(b" entries=")?;
    put_number(text, crossed.entries)
}

/// Adds the numbers of a salvage.
pub fn put_saved(text: &mut ByteList, saved: &Saved) -> Result<(), NoMemory> {
    text.extend(b"rows=")?;
    put_number(text, saved.rows)?;
    text.extend(b" partial=")?;
    put_number(text, saved.partial)?;
    text.extend(b" leaves=")?;
    put_number(text, u64::from(saved.leaves))?;
    text.extend(b" lost=")?;
    put_number(text, u64::from(saved.lost))
}
