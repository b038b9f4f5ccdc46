//! Real files as the outside objects. Each opens its file at its first call, counts its faults, and
//! tells nothing of what the file holds: all that is seen of it is the word that names it, how it is opened, the count,
//! and of a file of pages how many were asked for.

ghost use Rattle.std.specs.Prelude.{◌≡◌, ◌+◌, ◌<◌, ◌≤◌, List, ℕ, Option, option_map, length, IfOk, IfSome, None, Some};
ghost use Rattle.std.specs.Prelude.{is_err};
ghost use Rattle.page_source.specs.Faults.{HasCause, AsksOne, count_after, one_more};
ghost use Rattle.page_source.specs.Objects.{untold};
ghost use Rattle.page_source.specs.Sources.{for_reading, anew, pages_to_read, text_to_read, pages_to_make};

use crate::counted::counted;
use crate::errors::Failed;
use crate::objects::{ByteSource, PageSource, PageStore};
use crate::page::{PAGE_SIZE, Page};
use crate::steps::Steps;
use crate::transfers::{count_pages, read_page, read_some, write_page};
use std::fs::{Files, OpenFile, OpenOptions};
use std::io;
use std::io::{Error, ErrorKind};
use std::marker::Model;
use std::sync::ledger::Ledger;

/// How a file is opened to be read, and for nothing else.
fn for_reading() -> OpenOptions
    ensures { result ≡ for_reading }
{
    let mut how = OpenOptions::new();
    how.read(true);
    how
}

/// How a file is opened to be written, made if there is none, and emptied.
fn anew() -> OpenOptions
    ensures { result ≡ anew }
{
    let mut how = OpenOptions::new();
    how.write(true).create(true).truncate(true);
    how
}

/// The word of the command line that names a file, and how this is opened. A word that is missing or isn't UTF-8 names
/// none.
#[derive(Drop)]
struct FileName<'a, R: Files> {
    rt: &'a R,
    word: Option<&'a [u8]>,
    how: OpenOptions,
}

impl<'a, R: Files> Model for FileName<'a, R> {
    ghost use Rattle.std.specs.Prelude.{option_map};
    ghost use Rattle.page_source.specs.Sources.{FileName};

    ghost Value = { FileName };

    ghost view = { λ s. record { word = option_map (λ bytes. bytes.now) s.word; how = s.how } };
}

impl<R: Files> FileName<'_, R> {
    fn path(&self) -> io::Result<&str>
        ensures { IfOk result (λ path. self.now.word ≡ Some path.now) }
    {
        let Some(word) = self.word else {
            return Err(Error::from(ErrorKind::NotFound));
        };
        str::from_utf8(word).map_err(|_| Error::from(ErrorKind::InvalidInput))
    }

    fn open(&self) -> io::Result<R::File> {
        self.how.open(self.rt, self.path()?)
    }
}

/// The file that stands open, or at the first call the one that is opened.
fn opened<'f, R: Files>(
    file: &'f mut Option<R::File>,
    name: &FileName<R>,
) -> io::Result<&'f mut R::File>
    ensures { IfSome file.old (λ before. IfOk result (λ found. found.now ≡ before)) }
{
    if file.is_none() {
        *file = Some(name.open()?);
    }
    file.as_mut().ok_or(Error::from(ErrorKind::NotFound))
}

/// A file by its name, seen as that. It is opened by the first call.
#[derive(Drop)]
struct NamedFile<'a, R: Files> {
    name: FileName<'a, R>,
    file: Option<R::File>,
}

impl<'a, R: Files> Model for NamedFile<'a, R> {
    ghost use Rattle.page_source.specs.Sources.{FileName};

    ghost Value = { FileName };

    ghost view = { λ s. s.name };
}

impl<'a, R: Files> NamedFile<'a, R> {
    fn new(rt: &'a R, word: Option<&'a [u8]>, how: OpenOptions) -> Self
        ensures { result ≡ record { word = option_map (λ bytes. bytes.now) word.entry; how = how } }
    {
        NamedFile {
            name: FileName { rt, word, how },
            file: None,
        }
    }

    /// A folder can be opened and has a size of its own, but no pages.
    fn count_pages(&mut self) -> io::Result<u32>
        ensures { self.new ≡ self.old }
    {
        let file = opened(&mut self.file, &self.name)?;
        if file.metadata()?.is_dir() {
            return Err(Error::from(ErrorKind::IsADirectory));
        }
        count_pages(file)
    }

    fn read_page(&mut self, n: u32, page: &mut Page) -> io::Result<()>
        ensures { self.new ≡ self.old }
    {
        read_page(opened(&mut self.file, &self.name)?, n, page)
    }

    fn read_some(&mut self, buffer: &mut [u8]) -> io::Result<usize>
        ensures same { self.new ≡ self.old }
        ensures bound { IfOk result (λ k. k ≤ length buffer.new) }
    {
        read_some(opened(&mut self.file, &self.name)?, buffer)
    }

    fn set_pages(&mut self, pages: u32) -> io::Result<()>
        ensures { self.new ≡ self.old }
    {
        opened(&mut self.file, &self.name)?.set_len(PAGE_SIZE as u64 * u64::from(pages))
    }

    fn write_page(&mut self, n: u32, page: &Page) -> io::Result<()>
        ensures { self.new ≡ self.old }
    {
        write_page(opened(&mut self.file, &self.name)?, n, page)
    }
}

/// A file that is read page by page, of 16,384 bytes each.
#[derive(Drop)]
pub struct FilePages<'a, R: Files> {
    named: NamedFile<'a, R>,
    faults: u64,
    fetches: u64,
}

impl<'a, R: Files> Model for FilePages<'a, R> {
    ghost use Rattle.page_source.specs.Sources.{NamedPages};

    ghost Value = { NamedPages };

    ghost view = { λ s. record {
      word = s.named.word;
      how = s.named.how;
      faults = s.faults;
      fetches = s.fetches;
    } };
}

impl<'a, R: Files> FilePages<'a, R> {
    /// The file that the word names; none where the word is missing.
    pub fn new(rt: &'a R, word: Option<&'a [u8]>) -> Self
        ensures { result ≡ pages_to_read (option_map (λ bytes. bytes.now) word.entry) }
    {
        FilePages {
            named: NamedFile::new(rt, word, for_reading()),
            faults: 0,
            fetches: 0,
        }
    }
}

impl<R: Files> PageSource for FilePages<'_, R> {
    ghost content = { λ s. None };

    ghost faults = { λ file. file.faults };

    ghost fetches = { λ file. file.fetches };

    fn pages(&mut self) -> Result<u32, Failed>
        ensures count { self.new ≡ record self.old { faults = count_after self.old.faults (is_err result) } }
        ensures cause { HasCause self.old.faults self.new.faults result }
        ensures asked { self.new.fetches ≡ self.old.fetches }
    {
        let done = self.named.count_pages();
        counted(&mut self.faults, done)
    }

    fn fetch<L: Ledger>(
        &mut self,
        n: u32,
        page: &mut Page,
        steps: &mut Steps<L>,
    ) -> Result<(), Failed>
        ensures step { steps.new ≡ steps.old + 1 }
        ensures count { self.new ≡ record self.old {
          faults = count_after self.old.faults (is_err result);
          fetches = one_more self.old.fetches;
        } }
        ensures cause { HasCause self.old.faults self.new.faults result }
        ensures asked { AsksOne self.old.fetches self.new.fetches }
    {
        steps.tick();
        self.fetches = self.fetches.saturating_add(1);
        let done = self.named.read_page(n, page);
        counted(&mut self.faults, done)
    }
}

/// A file that is read from front to end.
#[derive(Drop)]
pub struct FileBytes<'a, R: Files> {
    named: NamedFile<'a, R>,
    faults: u64,
}

impl<'a, R: Files> Model for FileBytes<'a, R> {
    ghost use Rattle.page_source.specs.Sources.{NamedObject};

    ghost Value = { NamedObject };

    ghost view = { λ s. record { word = s.named.word; how = s.named.how; faults = s.faults } };
}

impl<'a, R: Files> FileBytes<'a, R> {
    /// The file that the word names; none where the word is missing.
    pub fn new(rt: &'a R, word: Option<&'a [u8]>) -> Self
        ensures { result ≡ text_to_read (option_map (λ bytes. bytes.now) word.entry) }
    {
        FileBytes {
            named: NamedFile::new(rt, word, for_reading()),
            faults: 0,
        }
    }
}

impl<R: Files> ByteSource for FileBytes<'_, R> {
    ghost left = { λ s. None };

    ghost faults = { λ file. file.faults };

    fn read(&mut self, buffer: &mut [u8]) -> Result<usize, Failed>
        requires { 0 < length buffer.old }
        ensures bound { IfOk result (λ k. k ≤ length buffer.new) }
        ensures count { self.new ≡ record self.old { faults = count_after self.old.faults (is_err result) } }
        ensures cause { HasCause self.old.faults self.new.faults result }
    {
        let done = self.named.read_some(buffer);
        counted(&mut self.faults, done)
    }
}

/// A file of pages that is made anew, and empty.
#[derive(Drop)]
pub struct FileStore<'a, R: Files> {
    named: NamedFile<'a, R>,
    faults: u64,
}

impl<'a, R: Files> Model for FileStore<'a, R> {
    ghost use Rattle.page_source.specs.Sources.{NamedObject};

    ghost Value = { NamedObject };

    ghost view = { λ s. record { word = s.named.word; how = s.named.how; faults = s.faults } };
}

impl<'a, R: Files> FileStore<'a, R> {
    /// The file that the word names; none where the word is missing.
    pub fn new(rt: &'a R, word: Option<&'a [u8]>) -> Self
        ensures { result ≡ pages_to_make (option_map (λ bytes. bytes.now) word.entry) }
    {
        FileStore {
            named: NamedFile::new(rt, word, anew()),
            faults: 0,
        }
    }
}

impl<R: Files> PageStore for FileStore<'_, R> {
    ghost told = { λ s. untold };

    ghost faults = { λ file. file.faults };

    fn set_size(&mut self, pages: u32) -> Result<(), Failed>
        ensures count { self.new ≡ record self.old { faults = count_after self.old.faults (is_err result) } }
        ensures cause { HasCause self.old.faults self.new.faults result }
    {
        let done = self.named.set_pages(pages);
        counted(&mut self.faults, done)
    }

    fn put(&mut self, n: u32, page: &Page) -> Result<(), Failed>
        ensures count { self.new ≡ record self.old { faults = count_after self.old.faults (is_err result) } }
        ensures cause { HasCause self.old.faults self.new.faults result }
    {
        let done = self.named.write_page(n, page);
        counted(&mut self.faults, done)
    }
}
