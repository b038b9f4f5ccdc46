//! Values that are written to pages of their own, and read again.

ghost use Rattle.std.specs.Prelude.{◌≡◌, ◌<◌, length, IfOk};

use super::VALUE;
use offpage_chain::{ChainReader, write_chain};
use page_source::{
    ByteList, ChangingPages, Failed, Fails, MemoryStore, NoMemory, Page, PageSource, PageStore,
    Steps,
};
use std::alloc::Global;
use std::marker::Brand;
use std::sync::ledger::{Blank, Ledger};
use std::test::Fail;

/// An empty file of 64 pages, one of whose calls fails: that which sets the size is the first.
fn sized(alloc: Global, failing: u64) -> Result<MemoryStore, Fail>
    ensures { IfOk result (λ store. store.size ≡ 64) }
{
    let mut store = MemoryStore::new(alloc, 64, Fails::of(alloc, &[failing])?)?;
    store.set_size(64)?;
    Ok(store)
}

/// Such a file after 40,000 bytes were put on its pages 4 to 6, and what that answered.
fn written(
    alloc: Global,
    failing: u64,
    bytes: &[u8],
    page: &mut Page,
) -> Result<(MemoryStore, Result<(), Failed>), Fail>
    requires { length bytes.now ≡ 40000 }
{
    let mut store = sized(alloc, failing)?;
    let answer = write_chain(&mut store, 23, &[4, 5, 6], bytes, page);
    Ok((store, answer))
}

/// What that answered.
fn answer_of(
    alloc: Global,
    failing: u64,
    bytes: &[u8],
    page: &mut Page,
) -> Result<Result<(), Failed>, Fail>
    requires { length bytes.now ≡ 40000 }
{
    let (_store, answer) = written(alloc, failing, bytes, page)?;
    Ok(answer)
}

/// The first eight pages of the file.
fn first_pages<L: Ledger>(
    alloc: Global,
    store: MemoryStore,
    page: &mut Page,
    steps: &mut Steps<L>,
) -> Result<ByteList, Fail> {
    let mut file = store.into_pages(Fails::of(alloc, &[])?)?;
    let mut bytes = ByteList::new(alloc);
    for n in 0..8 {
        file.fetch(n, page, steps)?;
        bytes.extend(page.bytes())?;
    }
    Ok(bytes)
}

/// The bytes of three parts along the chain.
fn parts_of<L: Ledger>(
    alloc: Global,
    source: &mut ChangingPages,
    page: &mut Page,
    steps: &mut Steps<L>,
) -> Result<ByteList, NoMemory> {
    let mut left = 3;
    let mut reader = ChainReader::new(&VALUE);
    let mut value = ByteList::new(alloc);
    for _ in 0..3 {
        if let Ok(Some(n)) = reader.part(source, page, &mut left, steps) {
            value.extend(&page.bytes()[46..46 + n])?;
        }
    }
    Ok(value)
}

/// What was written, read again from a file that tells nothing.
fn read_back<L: Ledger>(alloc: Global, store: MemoryStore, blank: Blank) -> Result<ByteList, Fail>
    requires name { blank.name ≡ L.name }
    requires parts { blank.parts ≡ L.parts }
    requires shared { 0 < blank.parts }
{
    let mut page = Page::zeroed(alloc)?;
    let mut steps = Steps::<L>::new(blank);
    let file = first_pages(alloc, store, &mut page, &mut steps)?;
    let mut source = ChangingPages::new(file, ByteList::new(alloc), 100);
    Ok(parts_of(alloc, &mut source, &mut page, &mut steps)?)
}

/// 40,000 bytes, of which the parts differ.
fn value() -> [u8; 40_000] {
    let mut bytes = [0; 40_000];
    for k in 0..40_000 {
        bytes[k] = (k % 251) as u8;
    }
    bytes
}

#[test]
fn no_bytes_take_no_page(rt: HostRuntime) -> Result<(), Fail> {
    let alloc = rt.alloc();
    // A page that is put would be the second call.
    let mut store = sized(alloc, 2)?;
    let mut page = Page::zeroed(alloc)?;
    assert!(rt; write_chain(&mut store, 23, &[], &[], &mut page) == Ok(()));
    Ok(())
}

#[test]
fn one_byte_takes_one_page(rt: HostRuntime) -> Result<(), Fail> {
    let alloc = rt.alloc();
    let mut store = sized(alloc, 0)?;
    let mut page = Page::zeroed(alloc)?;
    assert!(rt; write_chain(&mut store, 23, &[4], &[7], &mut page) == Ok(()));
    let part = [0, 0, 0, 1, 0xFF, 0xFF, 0xFF, 0xFF, 7, 0];
    assert!(rt; &page.bytes()[38..48] == part.as_slice());
    Ok(())
}

#[test]
fn a_value_is_written_and_read(rt: HostRuntime) -> Result<(), Fail> {
    let alloc = rt.alloc();
    let mut page = Page::zeroed(alloc)?;
    page.put_bytes(0, &[0xFF; 16384]);
    let bytes = value();
    let (store, answer) = written(alloc, 0, &bytes, &mut page)?;
    assert!(rt; answer == Ok(()));
    let last = [0, 0, 0x1C, 0xAC, 0xFF, 0xFF, 0xFF, 0xFF];
    assert!(rt; &page.bytes()[38..46] == last.as_slice());
    assert!(rt; read_back::<Brand>(alloc, store, Blank::new(1))?.bytes() == bytes.as_slice());
    // The third page of the value is the fourth call.
    assert!(rt; answer_of(alloc, 4, &bytes, &mut page)? == Err(Failed));
    Ok(())
}
