//! What the adapters over real files and streams do at places past 32 bits, and where a call fails.

ghost use Rattle.std.specs.Prelude.{◌≡◌, ◌<◌};

use page_source::{
    ByteSink, ByteSource, Failed, FileBytes, FilePages, FileStore, NoMemory, Page, PageSource,
    PageStore, StdSink, Steps,
};
use std::alloc::Global;
use std::cell::Cell;
use std::fmt::Display;
use std::fs::Files;
use std::io::{Error, ErrorKind, Print};
use std::marker::Brand;
use std::sync::ledger::{Blank, Ledger};
use std::test::Fail;
use std::{fs, io};

/// A page of this byte.
fn page_of(alloc: Global, byte: u8) -> Result<Page, NoMemory> {
    let mut page = Page::zeroed(alloc)?;
    page.put_bytes(0, &[byte; 16384]);
    Ok(page)
}

/// What a fetch answers, and the last byte of the page.
fn last_byte<R: Files, L: Ledger>(
    file: &mut FilePages<R>,
    n: u32,
    page: &mut Page,
    blank: Blank,
) -> (Result<(), Failed>, u8)
    requires name { blank.name ≡ L.name }
    requires parts { blank.parts ≡ L.parts }
    requires shared { 0 < blank.parts }
{
    let answer = file.fetch(n, page, &mut Steps::<L>::new(blank));
    (answer, page.bytes()[16383])
}

/// A file with two pages, all else of which is holes.
fn write_far(rt: &HostRuntime) -> Result<(), Fail> {
    let (first, last) = (page_of(rt.alloc(), 0x11)?, page_of(rt.alloc(), 0x22)?);
    let mut store = FileStore::new(rt, Some(b"far.ibd"));
    store.put(262_145, &first)?;
    store.put(4_194_303, &last)?;
    Ok(())
}

/// Two pages past the reach of a place of 32 bits, the second the last that a tablespace may have, and the pages where
/// places of 32 bits would put them.
#[test]
fn pages_of_a_large_file_are_written_and_read(rt: HostRuntime) -> Result<(), Fail> {
    let alloc = rt.alloc();
    write_far(&rt)?;
    let mut file = FilePages::new(&rt, Some(b"far.ibd"));
    assert!(rt; file.pages() == Ok(4_194_304));
    let mut page = Page::zeroed(alloc)?;
    for (n, byte) in [(262_145, 0x11), (1, 0), (4_194_303, 0x22), (262_143, 0)] {
        let found = last_byte::<HostRuntime, Brand>(&mut file, n, &mut page, Blank::new(1));
        assert!(rt; found == (Ok(()), byte), "{n}");
    }
    Ok(())
}

/// Puts the first two pages, and makes the file one of 64 pages.
fn put_and_size(store: &mut FileStore<HostRuntime>, page: &Page) -> Result<(), Failed> {
    store.put(0, page)?;
    store.put(1, page)?;
    store.set_size(64)
}

/// A file that is to be made anew is as it was until the first call, and a second call doesn't make it again.
#[test]
fn a_file_is_made_by_the_first_call(rt: HostRuntime) -> Result<(), Fail> {
    let page = page_of(rt.alloc(), 0x33)?;
    fs::write(&rt, "kept.ibd", "what stood here before")?;
    let mut store = FileStore::new(&rt, Some(b"kept.ibd"));
    assert!(rt; fs::read(&rt, "kept.ibd")?.len() == 22);
    put_and_size(&mut store, &page)?;
    let bytes = fs::read(&rt, "kept.ibd")?;
    assert!(rt; bytes.len() == 64 * 16384);
    assert!(rt; (bytes[0], bytes[32767], bytes[32768]) == (0x33, 0x33, 0));
    Ok(())
}

/// Each method over a word that is missing.
#[test]
fn a_missing_word_names_no_file(rt: HostRuntime) -> Result<(), Fail> {
    let mut page = Page::zeroed(rt.alloc())?;
    let mut file = FilePages::new(&rt, None);
    assert!(rt; file.pages() == Err(Failed));
    let found = last_byte::<HostRuntime, Brand>(&mut file, 0, &mut page, Blank::new(1));
    assert!(rt; found == (Err(Failed), 0));
    let mut store = FileStore::new(&rt, None);
    let answers = [store.put(0, &page), store.set_size(64)];
    assert!(rt; answers == [Err(Failed), Err(Failed)]);
    assert!(rt; FileBytes::new(&rt, None).read(&mut [0; 3]) == Err(Failed));
    Ok(())
}

/// A stream that takes so many bytes, and then fails.
#[derive(Drop)]
struct Failing {
    room: Cell<usize>,
}

impl Print for Failing {
    fn print<D: Display + Drop>(&self, _value: D) -> io::Result<()> {
        Err(Error::from(ErrorKind::Unsupported))
    }

    fn println<D: Display + Drop>(&self, _value: D) -> io::Result<()> {
        Err(Error::from(ErrorKind::Unsupported))
    }

    fn write_all(&self, _bytes: &[u8]) -> io::Result<()> {
        Err(Error::from(ErrorKind::Unsupported))
    }

    fn write_some(&self, bytes: &[u8]) -> io::Result<usize> {
        let room = self.room.get();
        if room == 0 {
            return Err(Error::from(ErrorKind::Unsupported));
        }
        let count = bytes.len().min(room);
        self.room.set(room - count);
        Ok(count)
    }
}

/// A write that fails at once, behind three bytes, and not at all.
#[test]
fn a_write_that_fails_is_a_fault(rt: HostRuntime) {
    for (room, answer) in [(0, Err(Failed)), (3, Err(Failed)), (6, Ok(()))] {
        let stream = Failing {
            room: Cell::new(room),
        };
        assert!(rt; StdSink::new(&stream).put(b"broken") == answer, "{room}");
        assert!(rt; stream.room.get() == 0, "{room}");
    }
}
