//! The command `build`: a tablespace of the lines of rows, which is checked and dumped then.

ghost use Rattle.std.specs.Prelude.{◌≡◌, ◌<◌};

use case_files::edited_pages::EditedPages;
use case_files::error::LineError;
use case_files::failing::{Failing, Object, which_of};
use case_files::named_files::{Base, NamedFiles, copied};
use case_files::rows::rows_of;
use case_files::store::CaseStore;
use case_files::text::{put_hex, put_number};
use case_files::words::Words;
use fil_frame::crc32c;
use file_cases::outcome::{End, put_checked};
use file_cases::report::Report;
use file_cases::run::{Hitch, Ready, Task};
use page_source::{ByteList, Fails, MemoryBytes, NoMemory, Page, Steps};
use schema_text::Schema;
use space_builder::{BuildStop, Built, RowsWhy, build};
use std::alloc::Global;
use std::marker::Brand;
use std::sync::ledger::{Blank, Ledger};
use table_check::Checked;

/// The room of a store of which a line says nothing: as much as a build may need.
const ROOM: u32 = 16_384;

/// `build SCHEMA [room N] [fail OBJECT CALLS] = ROWS`, without its first word.
#[derive(Drop)]
pub struct BuildCase<'a> {
    schema: &'a str,
    room: u32,
    failing: Failing,
    rows: ByteList,
}

/// A build that ended, and the store that it left.
#[derive(Drop)]
struct Left {
    end: Result<Built, BuildStop>,
    store: CaseStore,
}

impl<'a> BuildCase<'a> {
    pub fn read(alloc: Global, what: &'a str) -> Result<BuildCase<'a>, LineError> {
        let (items, rows) = what.split_once(" =").ok_or(LineError::Word)?;
        let mut words = Words::of(alloc, items)?;
        let schema = words.next()?;
        let room = read_room(&mut words)?;
        let failing = Failing::read(&mut words)?;
        words.end()?;
        Ok(BuildCase {
            schema,
            room,
            failing,
            rows: rows_of(alloc, rows.strip_prefix(' ').unwrap_or(rows))?,
        })
    }

    /// Builds once, or once for each call that fails, and compares.
    pub fn run(
        &self,
        alloc: Global,
        files: &NamedFiles,
        answer: &str,
        report: &mut Report,
    ) -> Result<(), LineError> {
        let schema = files.schema(self.schema)?;
        let calls = self.failing.calls;
        for call in calls.first..calls.last.saturating_add(1) {
            let came = self.said_at(alloc, schema, call)?;
            let which = which_of(alloc, call)?;
            report.compare(which.bytes(), answer.as_bytes(), came.bytes())?;
        }
        Ok(())
    }

    /// The file that the build leaves, where the first of the calls fails that are to.
    pub fn base(&self, alloc: Global, files: &NamedFiles) -> Result<Base, LineError> {
        let schema = files.schema(self.schema)?;
        match Schema::read(alloc, schema) {
            Ok(table) => {
                let left = self.left_at(alloc, &table, self.failing.calls.first)?;
                base_of(alloc, schema, left.store)
            }
            Err(_) => Err(LineError::Name),
        }
    }

    /// What is said of a build of which this call fails, if it is one.
    fn said_at(&self, alloc: Global, schema: &[u8], call: u64) -> Result<ByteList, LineError> {
        let mut text = ByteList::new(alloc);
        match Schema::read(alloc, schema) {
            Ok(table) => {
                let left = self.left_at(alloc, &table, call)?;
                self.put_left(alloc, &mut text, schema, left)?;
            }
            Err(error) => End::from(error).put(&mut text)?,
        }
        Ok(text)
    }

    /// Builds into a store of which this call fails, or from rows of which it does.
    fn left_at(&self, alloc: Global, table: &Schema, call: u64) -> Result<Left, LineError> {
        let fails = Fails::of(alloc, &[self.failing.call_of(Object::Source, call)])?;
        let mut rows = MemoryBytes::new(copied(alloc, self.rows.bytes())?, fails);
        let fails_at = self.failing.call_of(Object::Target, call);
        let mut store = CaseStore::new(alloc, self.room, fails_at);
        let end = build_into::<Brand>(alloc, &mut rows, table, &mut store, Blank::new(1));
        Ok(Left { end, store })
    }

    /// Adds what was built, or the line of the status and what is wrong with the store then.
    fn put_left(
        &self,
        alloc: Global,
        text: &mut ByteList,
        schema: &[u8],
        left: Left,
    ) -> Result<(), LineError> {
        match left.end {
            Ok(built) => {
                put_built(text, built)?;
                let base = base_of(alloc, schema, left.store)?;
                self.put_file(alloc, text, &base, built)
            }
            Err(stop) => {
                put_stop(text, stop)?;
                Ok(put_wrong(text, stop, &left.store)?)
            }
        }
    }

    /// Adds the checksum of the file, and what a check and a dump say of it.
    fn put_file(
        &self,
        alloc: Global,
        text: &mut ByteList,
        base: &Base,
        built: Built,
    ) -> Result<(), LineError> {
        text.extend(b" sum=")?;
        put_hex(text, file_sum(alloc, base, built.pages)?)?;
        let ready = Ready::of(base, EditedPages::new(alloc), base.schema.bytes());
        put_check(alloc, text, &ready, built)?;
        self.put_dump(alloc, text, &ready)
    }

    /// Adds what a dump says, where it isn't the rows.
    fn put_dump(
        &self,
        alloc: Global,
        text: &mut ByteList,
        ready: &Ready<'_>,
    ) -> Result<(), LineError> {
        let rows = self.rows.bytes();
        let dumped = ready.run(alloc, Task::Dump, Hitch::Room(rows.len() as u64))?;
        if dumped.end.is_ok() && dumped.written.bytes() == rows {
            return Ok(());
        }
        text.extend(b", but a dump says ")?;
        text.extend(dumped.said_as(alloc, b"bytes=", rows)?.bytes())?;
        Ok(())
    }
}

/// `room 64`, where the line says it.
fn read_room(words: &mut Words) -> Result<u32, LineError> {
    if words.skip("room") {
        u32::try_from(words.number()?).map_err(|_| LineError::Number)
    } else {
        Ok(ROOM)
    }
}

/// Builds into the store.
fn build_into<L: Ledger>(
    alloc: Global,
    rows: &mut MemoryBytes,
    table: &Schema,
    store: &mut CaseStore,
    blank: Blank,
) -> Result<Built, BuildStop>
    requires name { blank.name ≡ L.name }
    requires parts { blank.parts ≡ L.parts }
    requires shared { 0 < blank.parts }
{
    build(alloc, rows, table, store, &mut Steps::<L>::new(blank))
}

/// The file that a build left.
fn base_of(alloc: Global, schema: &[u8], store: CaseStore) -> Result<Base, LineError> {
    Ok(Base {
        size: store.bytes(),
        pages: store.into_pages(),
        schema: copied(alloc, schema)?,
    })
}

/// The CRC-32C of all bytes of a file that was built.
fn file_sum(alloc: Global, base: &Base, pages: u32) -> Result<u32, NoMemory> {
    let zeros = Page::zeroed(alloc)?;
    let mut bytes = ByteList::new(alloc);
    for n in 0..pages {
        let page = base.pages.find(n).unwrap_or(&zeros);
        bytes.extend(page.bytes())?;
    }
    Ok(crc32c(bytes.bytes()))
}

/// Adds the numbers of a tablespace that was built.
fn put_built(text: &mut ByteList, built: Built) -> Result<(), NoMemory> {
    text.extend(b"pages=")?;
    put_number(text, u64::from(built.pages))?;
    text.extend(b" rows=")?;
    put_number(text, built.rows)
}

/// Adds how many pages are used, where a check finds as many pages and rows as were built, and nothing else.
fn put_check(
    alloc: Global,
    text: &mut ByteList,
    ready: &Ready<'_>,
    built: Built,
) -> Result<(), NoMemory> {
    match ready.checked(alloc) {
        Ok(checked) => {
            if checked != all_of(built, checked.used) {
                text.extend(b", but a check says ")?;
                return put_checked(text, &checked);
            }
            text.extend(b" used=")?;
            put_number(text, u64::from(checked.used))
        }
        Err(end) => {
            text.extend(b", but a check says ")?;
            end.put(text)
        }
    }
}

/// The numbers of a tablespace that was built, of which so many pages are used.
fn all_of(built: Built, used: u32) -> Checked {
    Checked {
        pages: built.pages,
        used,
        rows: built.rows,
        deleted: 0,
        unreached: 0,
    }
}

/// Adds the line of the status.
fn put_stop(text: &mut ByteList, stop: BuildStop) -> Result<(), NoMemory> {
    match stop {
        BuildStop::RootPlace { line } => put_line(text, b"schema line ", line, b" root"),
        BuildStop::RowsRefused { line, why } => put_line(text, b"rows line ", line, word_of(why)),
        BuildStop::Full => text.extend(b"full"),
        BuildStop::Source => text.extend(b"source"),
        BuildStop::Store => text.extend(b"store"),
        BuildStop::Memory => text.extend(b"memory"),
    }
}

/// Adds the line that is refused, and why.
fn put_line(text: &mut ByteList, what: &[u8], line: u32, why: &[u8]) -> Result<(), NoMemory> {
    text.extend(what)?;
    put_number(text, u64::from(line))?;
    text.extend(why)
}

/// The word for the reason, behind a space.
fn word_of(why: RowsWhy) -> &'static [u8] {
    match why {
        RowsWhy::Long => b" long",
        RowsWhy::Input => b" input",
        RowsWhy::Line => b" line",
        RowsWhy::Order => b" order",
        RowsWhy::Big => b" big",
    }
}

/// Adds what is wrong with the store that a build left. Page 0 is put last, and before a refusal there is no call.
fn put_wrong(text: &mut ByteList, stop: BuildStop, store: &CaseStore) -> Result<(), NoMemory> {
    match stop {
        BuildStop::Store | BuildStop::Memory => {
            if store.holds_head() {
                return text.extend(b", but page 0 was put");
            }
        }
        _ => {
            if !store.is_untouched() {
                return text.extend(b", but the store was called");
            }
        }
    }
    Ok(())
}
