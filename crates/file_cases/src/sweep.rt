//! The command `sweep`: one bit of one byte after another.

use crate::report::Report;
use crate::run::{Hitch, Ready, Task};
use case_files::edit::{Edit, Frame};
use case_files::edited_pages::EditedPages;
use case_files::error::LineError;
use case_files::named_files::{NamedFiles, copied};
use case_files::plan::Plan;
use case_files::text::{decode, put_number};
use case_files::words::{Range, Words, any_has, ranges};
use page_source::{ByteList, PAGE_SIZE};
use std::alloc::Global;

/// Which bytes are changed, and which bits of each.
#[derive(Drop)]
struct Tried {
    /// Which bytes of each page are changed.
    bytes: Vec<Range>,
    /// Each byte of the file whose place is a multiple of this; none where it is 0.
    every: u64,
    bits: &'static [u8],
}

impl Tried {
    fn read(alloc: Global, words: &mut Words) -> Result<Tried, LineError> {
        let mut tried = Tried {
            bytes: Vec::new(alloc),
            every: 0,
            bits: &[1],
        };
        if words.skip("bytes") {
            tried.bytes = ranges(alloc, words.next()?)?;
        }
        if words.skip("every") {
            tried.every = words.number()?;
        }
        if words.skip("flip") {
            if !words.skip("each") {
                return Err(LineError::Word);
            }
            tried.bits = &[1, 2, 4, 8, 16, 32, 64, 128];
        }
        words.end()?;
        Ok(tried)
    }

    /// Whether this byte of the page is changed.
    fn has(&self, page: u32, at: u16) -> bool {
        let place = u64::from(page) * PAGE_SIZE as u64 + u64::from(at);
        any_has(&self.bytes, u64::from(at)) || self.every != 0 && place % self.every == 0
    }
}

/// The answer at some bytes of some pages.
#[derive(Drop)]
struct Reply<'a> {
    pages: Vec<Range>,
    bytes: Vec<Range>,
    answer: &'a str,
}

impl<'a> Reply<'a> {
    /// `PAGES/BYTES ANSWER`.
    fn read(alloc: Global, text: &'a str) -> Result<Reply<'a>, LineError> {
        let (places, answer) = text.split_once(' ').ok_or(LineError::Word)?;
        let (pages, bytes) = places.split_once('/').ok_or(LineError::Word)?;
        Ok(Reply {
            pages: ranges(alloc, pages)?,
            bytes: ranges(alloc, bytes)?,
            answer,
        })
    }
}

/// The answers of a line, one for some bytes each.
fn replies_of(alloc: Global, answer: &str) -> Result<Vec<Reply<'_>>, LineError> {
    let mut replies = Vec::new(alloc);
    for text in answer.split("; ") {
        replies.push(Reply::read(alloc, text)?)?;
    }
    Ok(replies)
}

/// What the task says of the file as it is.
fn said(alloc: Global, ready: &Ready<'_>, task: Task<'_>) -> Result<ByteList, LineError> {
    let outcome = ready.run(alloc, task, Hitch::None)?;
    Ok(outcome.said_as(alloc, b"", b"")?)
}

/// The first of the answers that is given for this byte, with the page's number in place of a star; that without any
/// edit where it is `sound`.
fn wanted_at(
    alloc: Global,
    replies: &[Reply<'_>],
    sound: &[u8],
    page: u32,
    at: u16,
) -> Result<ByteList, LineError> {
    for reply in replies {
        if any_has(&reply.pages, u64::from(page)) && any_has(&reply.bytes, u64::from(at)) {
            return wanted_of(alloc, reply.answer, sound, page);
        }
    }
    Err(LineError::NoAnswer)
}

fn wanted_of(alloc: Global, answer: &str, sound: &[u8], page: u32) -> Result<ByteList, LineError> {
    if answer == "sound" {
        return Ok(copied(alloc, sound)?);
    }
    match answer.strip_suffix('*') {
        Some(front) => {
            let mut wanted = copied(alloc, front.as_bytes())?;
            put_number(&mut wanted, u64::from(page))?;
            Ok(wanted)
        }
        None => decode(alloc, answer),
    }
}

/// `sweep check BASE BYTES-TRIED`.
#[derive(Drop)]
pub struct SweepCase<'a> {
    task: Task<'static>,
    base: &'a str,
    tried: Tried,
}

impl<'a> SweepCase<'a> {
    pub fn read(alloc: Global, words: &mut Words<'a>) -> Result<SweepCase<'a>, LineError> {
        let task = Task::read(words.next()?)?;
        let base = words.next()?;
        let tried = Tried::read(alloc, words)?;
        Ok(SweepCase { task, base, tried })
    }

    /// Changes each of the bits alone, and compares.
    pub fn run(
        &self,
        alloc: Global,
        files: &NamedFiles,
        answer: &str,
        report: &mut Report,
    ) -> Result<(), LineError> {
        let replies = replies_of(alloc, answer)?;
        let base = files.file(self.base)?;
        let mut ready = Ready::new(alloc, files, &Plan::of(alloc, self.base))?;
        let sound = said(alloc, &ready, self.task)?;
        self.run_all(
            alloc,
            &base.pages,
            &mut ready,
            &replies,
            sound.bytes(),
            report,
        )
    }

    /// Changes each of the bits of all pages.
    fn run_all(
        &self,
        alloc: Global,
        pages: &EditedPages,
        ready: &mut Ready<'_>,
        replies: &[Reply<'_>],
        sound: &[u8],
        report: &mut Report,
    ) -> Result<(), LineError> {
        for n in 0..ready.pages() {
            *ready.over() = touched(alloc, pages, n)?;
            for at in 0..PAGE_SIZE as u16 {
                if self.tried.has(n, at) {
                    let wanted = wanted_at(alloc, replies, sound, n, at)?;
                    self.run_at(alloc, ready, n, at, wanted.bytes(), report)?;
                }
            }
        }
        Ok(())
    }

    /// Changes each bit of one byte, and changes it back.
    fn run_at(
        &self,
        alloc: Global,
        ready: &mut Ready<'_>,
        n: u32,
        at: u16,
        wanted: &[u8],
        report: &mut Report,
    ) -> Result<(), LineError> {
        for bits in self.tried.bits {
            ready.over().flip(n, usize::from(at), *bits)?;
            let outcome = ready.run(alloc, self.task, Hitch::None)?;
            ready.over().flip(n, usize::from(at), *bits)?;
            let came = outcome.said_as(alloc, wanted, b"")?;
            let which = which_of(alloc, n, at, *bits)?;
            report.compare(which.bytes(), wanted, came.bytes())?;
        }
        Ok(())
    }
}

/// The page alone, as it is.
fn touched(alloc: Global, under: &EditedPages, n: u32) -> Result<EditedPages, LineError> {
    let mut over = EditedPages::new(alloc);
    over.edit(alloc, under, &Edit::Touch { page: n })?;
    over.seal(Frame::AsIs);
    Ok(over)
}

/// Which of the tries it is.
fn which_of(alloc: Global, n: u32, at: u16, bits: u8) -> Result<ByteList, LineError> {
    let mut which = copied(alloc, b" at ")?;
    put_number(&mut which, u64::from(n))?;
    which.extend(b":")?;
    put_number(&mut which, u64::from(at))?;
    which.extend(b" bits ")?;
    put_number(&mut which, u64::from(bits))?;
    Ok(which)
}
