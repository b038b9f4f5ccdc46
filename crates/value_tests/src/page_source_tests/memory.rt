//! What a listed call, a page that isn't there and a passed room do, and that each call can succeed.

ghost use Rattle.std.specs.Prelude.{◌≡◌, ◌<◌, IfOk};
ghost use Rattle.page_source.specs.Objects.{CanSize};

use page_source::{
    ByteList, ByteSink, ByteSource, ChangingPages, Failed, Fails, LoggedPages, MemoryBytes,
    MemoryPages, MemorySink, MemoryStore, NoMemory, Page, PageMap, PageSource, PageStore,
    SparsePages, Steps,
};
use std::alloc::Global;
use std::marker::Brand;
use std::sync::ledger::{Blank, Ledger};
use std::test::Fail;

/// What a fetch answers, with the page's first byte after it.
fn fetched<L: Ledger>(
    file: &mut MemoryPages,
    page: &mut Page,
    n: u32,
    blank: Blank,
) -> (Result<(), Failed>, u8)
    requires name { blank.name ≡ L.name }
    requires parts { blank.parts ≡ L.parts }
    requires shared { 0 < blank.parts }
{
    let answer = file.fetch(n, page, &mut Steps::<L>::new(blank));
    (answer, page.bytes()[0])
}

fn whole_pages<P: PageSource>(file: &mut P) -> Result<u32, Failed> {
    file.pages()
}

fn read_three<S: ByteSource>(text: &mut S, buffer: &mut [u8; 3]) -> Result<usize, Failed> {
    text.read(buffer)
}

fn put_text<S: ByteSink>(sink: &mut S, text: &str) -> Result<(), Failed> {
    sink.put(text.as_bytes())
}

fn size_to<S: PageStore>(store: &mut S, pages: u32) -> Result<(), Failed>
    requires { CanSize (S.told store.old) pages }
{
    store.set_size(pages)
}

fn two_pages_and_a_byte(alloc: Global) -> Result<ByteList, NoMemory> {
    let mut bytes = ByteList::new(alloc);
    bytes.extend(&[0x11; 16384])?;
    bytes.extend(&[0x22; 16384])?;
    bytes.push(0x33)?;
    Ok(bytes)
}

/// Two pages and a byte as a file, whose calls 1 and 4 fail.
fn failing_pages(alloc: Global) -> Result<MemoryPages, NoMemory> {
    let bytes = two_pages_and_a_byte(alloc)?;
    Ok(MemoryPages::new(bytes, Fails::of(alloc, &[1, 4])?))
}

#[test]
fn pages_fail_where_listed_or_not_there(rt: HostRuntime) -> Result<(), Fail> {
    let mut file = failing_pages(rt.alloc())?;
    assert!(rt; whole_pages(&mut file) == Err(Failed));
    assert!(rt; file.pages() == Ok(2));
    let mut page = Page::zeroed(rt.alloc())?;
    for (n, answer) in [
        (1, (Ok(()), 0x22)),
        (0, (Err(Failed), 0x22)),
        (0, (Ok(()), 0x11)),
        (2, (Err(Failed), 0x11)),
    ] {
        assert!(rt; fetched::<Brand>(&mut file, &mut page, n, Blank::new(1)) == answer);
    }
    Ok(())
}

#[test]
fn bytes_fail_where_listed(rt: HostRuntime) -> Result<(), Fail> {
    let alloc = rt.alloc();
    let mut bytes = ByteList::new(alloc);
    bytes.extend(b"hello")?;
    let mut text = MemoryBytes::new(bytes, Fails::of(alloc, &[2])?);
    let mut buffer = [0; 3];
    for (answer, left) in [
        (Ok(3), b"hel"),
        (Err(Failed), b"hel"),
        (Ok(2), b"lol"),
        (Ok(0), b"lol"),
    ] {
        assert!(rt; read_three(&mut text, &mut buffer) == answer);
        assert!(rt; &buffer == left);
    }
    Ok(())
}

#[test]
fn a_sink_fails_where_listed_or_full(rt: HostRuntime) -> Result<(), Fail> {
    let alloc = rt.alloc();
    let mut sink = MemorySink::new(alloc, 5, Fails::of(alloc, &[2])?)?;
    for (piece, answer) in [
        ("ab", Ok(())),
        ("cd", Err(Failed)),
        ("cdef", Err(Failed)),
        ("cde", Ok(())),
        ("f", Err(Failed)),
        ("", Ok(())),
    ] {
        assert!(rt; put_text(&mut sink, piece) == answer);
    }
    assert!(rt; sink.bytes() == b"abcde".as_slice());
    Ok(())
}

#[test]
fn a_store_is_sized_where_it_has_room(rt: HostRuntime) -> Result<(), Fail> {
    let alloc = rt.alloc();
    for (room, listed, answer) in [(64, 0, Ok(())), (63, 0, Err(Failed)), (64, 1, Err(Failed))] {
        let mut store = MemoryStore::new(alloc, room, Fails::of(alloc, &[listed])?)?;
        assert!(rt; size_to(&mut store, 64) == answer);
    }
    Ok(())
}

/// A store of 64 pages with this room, whose calls with these numbers fail.
fn sized(alloc: Global, room: u32, fails: &[u64]) -> Result<MemoryStore, Fail>
    ensures { IfOk result (λ store. store.size ≡ 64) }
{
    let mut store = MemoryStore::new(alloc, room, Fails::of(alloc, fails)?)?;
    store.set_size(64)?;
    Ok(store)
}

#[test]
fn a_store_fails_where_listed(rt: HostRuntime) -> Result<(), Fail> {
    let page = Page::zeroed(rt.alloc())?;
    let mut store = sized(rt.alloc(), 64, &[3])?;
    assert!(rt; store.put(63, &page) == Ok(()));
    assert!(rt; store.put(0, &page) == Err(Failed));
    assert!(rt; store.put(0, &page) == Ok(()));
    Ok(())
}

/// A page of this byte.
fn page_of(alloc: Global, byte: u8) -> Result<Page, NoMemory> {
    let mut page = Page::zeroed(alloc)?;
    page.put_bytes(0, &[byte; 16384]);
    Ok(page)
}

/// A map with two pages, the first of which was put twice.
fn two_held(alloc: Global) -> Result<PageMap, NoMemory> {
    let mut held = PageMap::new(alloc);
    held.put(2, page_of(alloc, 0x44)?)?;
    held.put(70_000, page_of(alloc, 0x33)?)?;
    held.put(2, page_of(alloc, 0x22)?)?;
    Ok(held)
}

/// What a fetch answers, and the page's last byte.
fn last_byte<L: Ledger>(
    file: &mut SparsePages,
    page: &mut Page,
    n: u32,
    blank: Blank,
) -> (Result<(), Failed>, u8)
    requires name { blank.name ≡ L.name }
    requires parts { blank.parts ≡ L.parts }
    requires shared { 0 < blank.parts }
{
    let answer = file.fetch(n, page, &mut Steps::<L>::new(blank));
    (answer, page.bytes()[16383])
}

/// Two pages held of a file of 70,001, whose call 3 fails.
fn sparse_pages(alloc: Global) -> Result<SparsePages, NoMemory> {
    let held = two_held(alloc)?;
    Ok(SparsePages::new(70_001, held, Fails::of(alloc, &[3])?))
}

#[test]
fn pages_that_are_not_held_are_zeros(rt: HostRuntime) -> Result<(), Fail> {
    let mut file = sparse_pages(rt.alloc())?;
    let mut page = page_of(rt.alloc(), 0xFF)?;
    assert!(rt; whole_pages(&mut file) == Ok(70_001));
    for (n, answer) in [
        (2, (Ok(()), 0x22)),
        (3, (Err(Failed), 0x22)),
        (3, (Ok(()), 0)),
        (70_000, (Ok(()), 0x33)),
        (70_001, (Err(Failed), 0x33)),
    ] {
        let found = last_byte::<Brand>(&mut file, &mut page, n, Blank::new(1));
        assert!(rt; found == answer, "{n}");
    }
    Ok(())
}

/// Puts the first page and the last.
fn put_two(alloc: Global, store: &mut MemoryStore) -> Result<(), Fail>
    requires { store.old.size ≡ 64 }
{
    store.put(0, &page_of(alloc, 0x11)?)?;
    store.put(63, &page_of(alloc, 0x22)?)?;
    Ok(())
}

/// The file of a store with 64 pages, of which two were put.
fn stored(alloc: Global) -> Result<SparsePages, Fail> {
    let mut store = sized(alloc, 128, &[])?;
    put_two(alloc, &mut store)?;
    Ok(store.into_pages(Fails::of(alloc, &[])?)?)
}

#[test]
fn a_store_becomes_a_file(rt: HostRuntime) -> Result<(), Fail> {
    let alloc = rt.alloc();
    let mut file = stored(alloc)?;
    let mut page = Page::zeroed(alloc)?;
    assert!(rt; file.pages() == Ok(64));
    for (n, answer) in [
        (63, (Ok(()), 0x22)),
        (1, (Ok(()), 0)),
        (0, (Ok(()), 0x11)),
        (64, (Err(Failed), 0x11)),
    ] {
        let found = last_byte::<Brand>(&mut file, &mut page, n, Blank::new(1));
        assert!(rt; found == answer, "{n}");
    }
    Ok(())
}

fn logged<L: Ledger>(
    file: &mut LoggedPages,
    page: &mut Page,
    n: u32,
    blank: Blank,
) -> Result<(), Failed>
    requires name { blank.name ≡ L.name }
    requires parts { blank.parts ≡ L.parts }
    requires shared { 0 < blank.parts }
{
    file.fetch(n, page, &mut Steps::<L>::new(blank))
}

/// Two pages in a file that keeps two numbers.
fn logged_pages(alloc: Global) -> Result<LoggedPages, NoMemory> {
    LoggedPages::new(alloc, two_pages_and_a_byte(alloc)?, 2)
}

#[test]
fn a_file_keeps_what_was_fetched(rt: HostRuntime) -> Result<(), Fail> {
    let mut file = logged_pages(rt.alloc())?;
    let mut page = Page::zeroed(rt.alloc())?;
    assert!(rt; whole_pages(&mut file) == Ok(2));
    for (n, answer) in [(1, Ok(())), (2, Err(Failed)), (0, Ok(())), (1, Ok(()))] {
        assert!(rt; logged::<Brand>(&mut file, &mut page, n, Blank::new(1)) == answer);
    }
    assert!(rt; file.log() == [1, 0].as_slice());
    Ok(())
}

fn one_page(alloc: Global) -> Result<ByteList, NoMemory> {
    let mut bytes = ByteList::new(alloc);
    bytes.extend(&[0x11; 16384])?;
    Ok(bytes)
}

fn changed<L: Ledger>(
    file: &mut ChangingPages,
    page: &mut Page,
    n: u32,
    blank: Blank,
) -> Result<(), Failed>
    requires name { blank.name ≡ L.name }
    requires parts { blank.parts ≡ L.parts }
    requires shared { 0 < blank.parts }
{
    file.fetch(n, page, &mut Steps::<L>::new(blank))
}

/// A file that grows behind its first call.
fn changing_pages(alloc: Global) -> Result<ChangingPages, NoMemory> {
    let first = one_page(alloc)?;
    Ok(ChangingPages::new(first, two_pages_and_a_byte(alloc)?, 2))
}

#[test]
fn a_file_changes(rt: HostRuntime) -> Result<(), Fail> {
    let mut file = changing_pages(rt.alloc())?;
    assert!(rt; whole_pages(&mut file) == Ok(1));
    assert!(rt; file.pages() == Ok(2));
    let mut page = Page::zeroed(rt.alloc())?;
    for (n, answer) in [(1, Ok(())), (2, Err(Failed))] {
        assert!(rt; changed::<Brand>(&mut file, &mut page, n, Blank::new(1)) == answer);
    }
    assert!(rt; page.bytes()[0] == 0x22);
    Ok(())
}
