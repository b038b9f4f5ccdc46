//! The adapters over real files and streams, and the numbers on a page.

ghost use Rattle.std.specs.Prelude.{◌≡◌, ◌<◌};

use page_source::{
    ByteList, ByteSink, ByteSource, Failed, FileBytes, FilePages, FileStore, NoMemory, Page,
    PageSource, PageStore, Rule, StdSink, Steps, read_be, write_be,
};
use std::alloc::Global;
use std::fs;
use std::fs::OpenOptions;
use std::io::{Seek, SeekFrom, Write};
use std::marker::Brand;
use std::sync::ledger::{Blank, Ledger};
use std::test::Fail;

fn fetch<L: Ledger>(
    source: &mut FilePages<HostRuntime>,
    n: u32,
    page: &mut Page,
    blank: Blank,
) -> Result<(), Failed>
    requires name { blank.name ≡ L.name }
    requires parts { blank.parts ≡ L.parts }
    requires shared { 0 < blank.parts }
{
    source.fetch(n, page, &mut Steps::<L>::new(blank))
}

/// A file of two pages, and five bytes more.
fn write_two_pages(rt: &HostRuntime) -> Result<(), Fail> {
    let mut bytes = Vec::from_elem(rt.alloc(), 7, 16384)?;
    bytes.extend_from_slice(&[8; 16384])?;
    bytes.extend_from_slice(&[9; 5])?;
    fs::write(rt, "two.ibd", bytes.as_slice())?;
    Ok(())
}

#[test]
fn pages_of_a_file_are_read(rt: HostRuntime) -> Result<(), Fail> {
    write_two_pages(&rt)?;
    let mut page = Page::zeroed(rt.alloc())?;
    let mut file = FilePages::new(&rt, Some(b"two.ibd"));
    assert!(rt; file.pages() == Ok(2));
    for (n, answer, byte) in [(1, Ok(()), 8), (2, Err(Failed), 0), (0, Ok(()), 7)] {
        assert!(rt; fetch::<Brand>(&mut file, n, &mut page, Blank::new(1)) == answer);
        assert!(rt; answer.is_err() || page.bytes() == [byte; 16384].as_slice());
    }
    Ok(())
}

#[test]
fn words_that_name_no_file_of_pages(rt: HostRuntime) -> Result<(), Fail> {
    fs::create_dir(&rt, "folder")?;
    for word in [
        None,
        Some(b"none.ibd".as_slice()),
        Some(b"\xFF"),
        Some(b"folder"),
        Some(b""),
    ] {
        assert!(rt; FilePages::new(&rt, word).pages() == Err(Failed));
    }
    Ok(())
}

/// A file of 262,146 pages that is nearly all holes.
fn write_large_file(rt: &HostRuntime) -> Result<(), Fail> {
    let mut file = OpenOptions::new()
        .write(true)
        .create(true)
        .open(rt, "large.ibd")?;
    file.set_len(262_146 * 16384)?;
    file.seek(SeekFrom::Start(262_145 * 16384))?;
    file.write_all(b"the last page")?;
    Ok(())
}

/// A page past the reach of a place of 32 bits.
#[test]
fn pages_of_a_large_file_are_read(rt: HostRuntime) -> Result<(), Fail> {
    write_large_file(&rt)?;
    let mut page = Page::zeroed(rt.alloc())?;
    let mut source = FilePages::new(&rt, Some(b"large.ibd"));
    assert!(rt; source.pages() == Ok(262_146));
    let found = fetch::<Brand>(&mut source, 262_145, &mut page, Blank::new(1));
    assert!(rt; found == Ok(()) && page.bytes().starts_with(b"the last page"));
    Ok(())
}

#[test]
fn bytes_of_a_file_are_read(rt: HostRuntime) -> Result<(), Fail> {
    fs::write(&rt, "schema", "table t dynamic\n")?;
    let mut buffer = [0u8; 9];
    let mut file = FileBytes::new(&rt, Some(b"schema"));
    for (answer, left) in [
        (Ok(9), b"table t d"),
        (Ok(7), b"ynamic\n d"),
        (Ok(0), b"ynamic\n d"),
    ] {
        assert!(rt; file.read(&mut buffer) == answer);
        assert!(rt; buffer == *left);
    }
    Ok(())
}

#[test]
fn words_that_name_no_file_of_bytes(rt: HostRuntime) -> Result<(), Fail> {
    fs::create_dir(&rt, "texts")?;
    for word in [None, Some(b"texts".as_slice())] {
        assert!(rt; FileBytes::new(&rt, word).read(&mut [0; 9]) == Err(Failed));
    }
    Ok(())
}

/// A page with numbers at both its ends.
fn marked(alloc: Global) -> Result<Page, NoMemory> {
    let mut page = Page::zeroed(alloc)?;
    write_be::<2>(&mut page, 0, 0xABCD);
    write_be::<2>(&mut page, 16382, 0x1234);
    Ok(page)
}

/// Makes the file one of 64 pages, of which the fourth is put.
fn put_fourth(rt: &HostRuntime, page: &Page) -> Result<(), Failed> {
    let mut store = FileStore::new(rt, Some(b"made.ibd"));
    store.set_size(64)?;
    store.put(3, page)
}

/// Makes a file where another one was before, and answers its bytes.
fn make_anew(rt: &HostRuntime) -> Result<Vec<u8>, Fail> {
    let page = marked(rt.alloc())?;
    fs::write(rt, "made.ibd", "what stood here before")?;
    put_fourth(rt, &page)?;
    Ok(fs::read(rt, "made.ibd")?)
}

#[test]
fn a_file_of_pages_is_made_anew(rt: HostRuntime) -> Result<(), Fail> {
    let bytes = make_anew(&rt)?;
    assert!(rt; bytes.len() == 64 * 16384);
    for (at, piece) in [
        (0, b"\0\0\0\0"),
        (3 * 16384, b"\xAB\xCD\0\0"),
        (4 * 16384 - 4, b"\0\0\x12\x34"),
    ] {
        assert!(rt;
            at <= bytes.len() && bytes[at..].starts_with(piece),
            "at {at}"
        );
    }
    assert!(rt; FileStore::new(&rt, Some(b"none/made.ibd")).set_size(64) == Err(Failed));
    Ok(())
}

#[test]
fn standard_streams_are_written(rt: HostRuntime) {
    let mut out = StdSink::new(rt.stdout());
    assert!(rt; out.put(b"") == Ok(()));
    assert!(rt; out.put(b"a line on the standard output\n") == Ok(()));
    let mut err = StdSink::new(rt.stderr());
    assert!(rt; err.put(b"a line on the standard error\n") == Ok(()));
}

#[test]
fn numbers_stand_on_a_page(rt: HostRuntime) -> Result<(), Fail> {
    let mut page = Page::zeroed(rt.alloc())?;
    page.put_bytes(16376, &[0xE3, 0x06, 0x92, 0x83, 0, 0, 0, 1]);
    assert!(rt; read_be::<4>(&page, 16376) == 0xE306_9283);
    assert!(rt; read_be::<8>(&page, 16376) == 0xE306_9283_0000_0001);
    assert!(rt; read_be::<3>(&page, 16374) == 0xE3);
    write_be::<3>(&mut page, 16377, 0x01_0203);
    assert!(rt; &page.bytes()[16375..] == [0, 0xE3, 1, 2, 3, 0, 0, 0, 1].as_slice());
    page.clear();
    assert!(rt; page.bytes() == [0u8; 16384].as_slice());
    Ok(())
}

#[test]
fn rules_are_named(rt: HostRuntime) {
    assert!(rt; (Rule::FileSize.number(), Rule::FileSize.name()) == (1, "file-size"));
    assert!(rt; (Rule::RecordChain.number(), Rule::RecordChain.name()) == (35, "record-chain"));
    assert!(rt;
        (Rule::UnreachedKind.number(), Rule::UnreachedKind.name()) == (50, "unreached-kind")
    );
}

#[test]
fn a_list_of_bytes_grows(rt: HostRuntime) -> Result<(), Fail> {
    let mut list = ByteList::new(rt.alloc());
    assert!(rt; list.push(1) == Ok(()));
    assert!(rt; list.extend(&[2, 3]) == Ok(()));
    assert!(rt; list.bytes() == [1u8, 2, 3].as_slice());
    Ok(())
}
