//! The commands `carve_list` and `carve_take`: what stands in a raw image of a disk.

use case_files::error::LineError;
use case_files::failing::{Failing, Object, which_of};
use case_files::hex::bytes_of;
use case_files::named_files::{NamedFiles, copied};
use case_files::store::CaseStore;
use case_files::text::{decode, put_number};
use case_files::words::{Range, Words, page_number};
use file_cases::outcome::{End, Outcome};
use file_cases::report::Report;
use file_cases::run::{Hitch, sink_of, written_of};
use image_carve::{TakeStop, Taken, take};
use image_listing::list;
use page_source::{ByteList, Fails, MemoryBytes, NoMemory, Page};
use std::alloc::Global;

/// `carve_list [fail OBJECT CALLS] PIECE ..`, and `carve_take SPACE [fail OBJECT CALLS] PIECE ..`, which has a space.
#[derive(Drop)]
pub struct CarveCase<'a> {
    space: Option<u32>,
    failing: Failing,
    pieces: Vec<&'a str>,
}

impl<'a> CarveCase<'a> {
    pub fn read_list(alloc: Global, words: &mut Words<'a>) -> Result<CarveCase<'a>, LineError> {
        CarveCase::read(alloc, None, words)
    }

    pub fn read_take(alloc: Global, words: &mut Words<'a>) -> Result<CarveCase<'a>, LineError> {
        let space = page_number(words.next()?)?;
        CarveCase::read(alloc, Some(space), words)
    }

    fn read(
        alloc: Global,
        space: Option<u32>,
        words: &mut Words<'a>,
    ) -> Result<CarveCase<'a>, LineError> {
        let failing = Failing::read(words)?;
        let mut pieces = Vec::new(alloc);
        for _ in 0..words.left() {
            pieces.push(words.next()?)?;
        }
        Ok(CarveCase {
            space,
            failing,
            pieces,
        })
    }

    /// Carves once, or once for each call that fails, and compares.
    pub fn run(
        &self,
        alloc: Global,
        files: &NamedFiles,
        answer: &str,
        report: &mut Report,
    ) -> Result<(), LineError> {
        let image = self.image(alloc, files)?;
        let wanted = decode(alloc, answer)?;
        let calls = self.failing.calls;
        for call in calls.first..calls.last.saturating_add(1) {
            let came = match self.space {
                Some(space) => self.said_of_take(alloc, image.bytes(), space, call)?,
                None => self.said_of_list(alloc, image.bytes(), wanted.bytes(), call)?,
            };
            let which = which_of(alloc, call)?;
            report.compare(which.bytes(), wanted.bytes(), came.bytes())?;
        }
        Ok(())
    }

    /// The bytes of all pieces, one after another.
    fn image(&self, alloc: Global, files: &NamedFiles) -> Result<ByteList, LineError> {
        let mut image = ByteList::new(alloc);
        for piece in &self.pieces {
            put_piece(alloc, &mut image, files, piece)?;
        }
        Ok(image)
    }

    /// The image, of which this call fails, if it is a call of the image.
    fn source(&self, alloc: Global, image: &[u8], call: u64) -> Result<MemoryBytes, NoMemory> {
        let fails = Fails::of(alloc, &[self.failing.call_of(Object::Source, call)])?;
        Ok(MemoryBytes::new(copied(alloc, image)?, fails))
    }

    /// A listing of the image, of which this call fails.
    fn listed(&self, alloc: Global, image: &[u8], call: u64) -> Result<Outcome, LineError> {
        let mut source = self.source(alloc, image, call)?;
        let fails_at = self.failing.call_of(Object::Sink, call);
        let mut sink = sink_of(alloc, Hitch::Sink(fails_at))?;
        let end = match list(alloc, &mut source, &mut sink) {
            Ok(()) => Ok(()),
            Err(stop) => Err(End::from(stop)),
        };
        written_of(alloc, end, &sink)
    }

    /// The words for a listing of which this call fails. What was written then has to be the front of the whole.
    fn said_of_list(
        &self,
        alloc: Global,
        image: &[u8],
        wanted: &[u8],
        call: u64,
    ) -> Result<ByteList, LineError> {
        let whole = match call {
            0 => ByteList::new(alloc),
            _ => self.listed(alloc, image, 0)?.written,
        };
        let outcome = self.listed(alloc, image, call)?;
        outcome.said_as(alloc, wanted, whole.bytes())
    }

    /// The words for a take of the space, of which this call fails, and the pages that the file holds at its end.
    fn said_of_take(
        &self,
        alloc: Global,
        image: &[u8],
        space: u32,
        call: u64,
    ) -> Result<ByteList, LineError> {
        let mut source = self.source(alloc, image, call)?;
        let fails_at = self.failing.call_of(Object::Target, call);
        let mut store = CaseStore::new(alloc, 0, fails_at);
        let mut said = ByteList::new(alloc);
        match take(alloc, &mut source, space, &mut store) {
            Ok(taken) => put_taken(&mut said, taken)?,
            Err(stop) => said.extend(word_of(stop))?,
        }
        store.into_pages().put_pages(&mut said)?;
        Ok(said)
    }
}

/// Bytes of a page of a file.
#[derive(Clone, Copy)]
struct Part<'a> {
    name: &'a str,
    page: u32,
    bytes: Range,
}

impl<'a> Part<'a> {
    /// `NAME:N`, or `NAME:N:FROM-TO`.
    fn read(piece: &'a str) -> Result<Part<'a>, LineError> {
        let (name, place) = piece.split_once(':').ok_or(LineError::Word)?;
        let (page, bytes) = place.split_once(':').unwrap_or((place, "0-16384"));
        Ok(Part {
            name,
            page: page_number(page)?,
            bytes: Range::read(bytes)?,
        })
    }

    /// Adds the bytes of the page to the image. A page that isn't kept is zeros.
    fn put(
        &self,
        alloc: Global,
        image: &mut ByteList,
        files: &NamedFiles,
    ) -> Result<(), LineError> {
        let zeros = Page::zeroed(alloc)?;
        let file = files.file(self.name)?;
        let page = file.pages.find(self.page).unwrap_or(&zeros);
        let (first, last) = (self.bytes.first as usize, self.bytes.last as usize);
        let bytes = page.bytes().get(first..last).ok_or(LineError::Place)?;
        image.extend(bytes)?;
        Ok(())
    }
}

/// Adds the bytes of a piece: `=BYTES`, or those of a page.
fn put_piece(
    alloc: Global,
    image: &mut ByteList,
    files: &NamedFiles,
    piece: &str,
) -> Result<(), LineError> {
    match piece.strip_prefix('=') {
        Some(bytes) => image.extend(bytes_of(alloc, bytes)?.bytes())?,
        None => Part::read(piece)?.put(alloc, image, files)?,
    }
    Ok(())
}

/// Adds the line that the program writes, without its line feed.
fn put_taken(said: &mut ByteList, taken: Taken) -> Result<(), NoMemory> {
    said.extend(b"pages=")?;
    put_number(said, u64::from(taken.pages))?;
    said.extend(b" of=")?;
    put_number(said, u64::from(taken.size))?;
    said.extend(b" newest=")?;
    put_number(said, taken.newest)
}

/// The word for what ended a take.
fn word_of(stop: TakeStop) -> &'static [u8] {
    match stop {
        TakeStop::Nothing => b"nothing",
        TakeStop::Source => b"source",
        TakeStop::Store => b"store",
        TakeStop::Memory => b"memory",
    }
}
