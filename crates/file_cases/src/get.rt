//! The command `get`: the row with a key.

use crate::file::{FileCase, fetched};
use crate::report::Report;
use crate::run::{Ready, Task};
use case_files::error::LineError;
use case_files::named_files::NamedFiles;
use case_files::plan::Plan;
use case_files::text::{decode, put_number};
use case_files::words::Words;
use page_source::{ByteList, NoMemory};
use std::alloc::Global;

/// `get BASE ITEM .. [fetches PAGE,PAGE,..] = KEY`, without its first word.
#[derive(Drop)]
pub struct GetCase<'a> {
    file: FileCase<'a>,
    fetches: Option<&'a str>,
    key: ByteList,
}

impl<'a> GetCase<'a> {
    pub fn read(alloc: Global, what: &'a str) -> Result<GetCase<'a>, LineError> {
        let (items, key) = what.split_once(" =").ok_or(LineError::Word)?;
        let mut words = Words::of(alloc, items)?;
        let plan = Plan::read(alloc, &mut words)?;
        let fetches = if words.skip("fetches") {
            Some(words.next()?)
        } else {
            None
        };
        words.end()?;
        Ok(GetCase {
            file: FileCase::of(plan),
            fetches,
            key: decode(alloc, key.strip_prefix(' ').unwrap_or(key))?,
        })
    }

    /// Looks the row up, and compares; then which pages the file was asked for, in order, where the line says it. Of a
    /// text that is no key's the file isn't called at all.
    pub fn run(
        &self,
        alloc: Global,
        files: &NamedFiles,
        answer: &str,
        report: &mut Report,
    ) -> Result<(), LineError> {
        let task = Task::Get(self.key.bytes());
        self.file.run(alloc, files, &[task], answer, report)?;
        if answer == "key" {
            let calls = number(alloc, self.calls(alloc, files)?)?;
            return report.compare(b" of the calls", b"0", calls.bytes());
        }
        let Some(pages) = self.fetches else {
            return Ok(());
        };
        let came = fetched(alloc, files, self.file.plan(), task, b",")?;
        let wanted: &[u8] = if pages == "none" {
            b""
        } else {
            pages.as_bytes()
        };
        report.compare(b" of the fetches", wanted, came.bytes())
    }

    /// How often the file is called.
    fn calls(&self, alloc: Global, files: &NamedFiles) -> Result<u64, LineError> {
        let ready = Ready::new(alloc, files, self.file.plan())?;
        let file = ready.fetches(alloc, Task::Get(self.key.bytes()))?;
        Ok(file.calls())
    }
}

/// The text of a number.
fn number(alloc: Global, number: u64) -> Result<ByteList, NoMemory> {
    let mut text = ByteList::new(alloc);
    put_number(&mut text, number)?;
    Ok(text)
}
