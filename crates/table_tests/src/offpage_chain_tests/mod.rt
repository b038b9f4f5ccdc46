//! References, and chains that are read whole, too far, or not at all.

mod checks;
mod writes;

ghost use Rattle.std.specs.Prelude.{◌≡◌, ◌<◌};

use offpage_chain::{ChainReader, Reference, read_reference, write_reference};
use page_source::{ByteList, ChangingPages, Fault, Halt, NoMemory, Page, Rule, Steps, write_be};
use std::alloc::Global;
use std::marker::Brand;
use std::sync::ledger::{Blank, Ledger};
use std::test::Fail;

const FIL_NULL: u32 = 0xFFFF_FFFF;

const VALUE: Reference = Reference {
    space: 23,
    page: 4,
    offset: 38,
    length: 40_000,
};

#[test]
fn references_are_written_and_read(rt: HostRuntime) {
    let mut bytes = [0xFF; 20];
    write_reference(&mut bytes, &VALUE);
    let written = [
        0, 0, 0, 23, 0, 0, 0, 4, 0, 0, 0, 38, 0, 0, 0, 0, 0, 0, 0x9C, 0x40,
    ];
    assert!(rt; bytes == written);
    // The flags of the owner and the high bytes of the length aren't read.
    bytes[12] = 0xC0;
    bytes[15] = 1;
    assert!(rt; read_reference(&bytes) == VALUE);
}

/// Seven pages, of which 4, 5 and 6 have parts of these lengths and lead to these pages.
fn chain(alloc: Global, parts: [(u32, u32); 3]) -> Result<ByteList, NoMemory> {
    let mut file = ByteList::new(alloc);
    let mut page = Page::zeroed(alloc)?;
    for _ in 0..4 {
        file.extend(page.bytes())?;
    }
    for (length, next) in parts {
        write_be::<4>(&mut page, 38, u64::from(length));
        write_be::<4>(&mut page, 42, u64::from(next));
        file.extend(page.bytes())?;
    }
    Ok(file)
}

/// What four readings answer, where so many fetches are left.
fn read<L: Ledger>(
    alloc: Global,
    parts: [(u32, u32); 3],
    fetches: u32,
    blank: Blank,
) -> Result<[Result<Option<usize>, Halt>; 4], NoMemory>
    requires name { blank.name ≡ L.name }
    requires parts { blank.parts ≡ L.parts }
    requires shared { 0 < blank.parts }
{
    let mut source = ChangingPages::new(chain(alloc, parts)?, chain(alloc, parts)?, 100);
    let mut page = Page::zeroed(alloc)?;
    let mut steps = Steps::<L>::new(blank);
    let mut left = fetches;
    let mut reader = ChainReader::new(&VALUE);
    let mut answers = [Ok(None); 4];
    for answer in &mut answers {
        *answer = reader.part(&mut source, &mut page, &mut left, &mut steps);
    }
    Ok(answers)
}

fn broken(page: u32) -> Result<Option<usize>, Halt> {
    Err(Halt::Broken(Fault {
        rule: Rule::ChainLength,
        page,
    }))
}

#[test]
fn chains_are_read_in_parts(rt: HostRuntime) -> Result<(), Fail> {
    let whole = [(16_330, 5), (16_330, 6), (7_340, FIL_NULL)];
    let all = [
        Ok(Some(16_330)),
        Ok(Some(16_330)),
        Ok(Some(7_340)),
        Ok(None),
    ];
    assert!(rt; read::<Brand>(rt.alloc(), whole, 3, Blank::new(1))? == all);
    // A page is due and no fetch is left.
    let cut = [Ok(Some(16_330)), Ok(Some(16_330)), broken(6), broken(6)];
    assert!(rt; read::<Brand>(rt.alloc(), whole, 2, Blank::new(1))? == cut);
    Ok(())
}

#[test]
fn bad_parts_are_named(rt: HostRuntime) -> Result<(), Fail> {
    let rows = [
        // No byte, and one more than a page has.
        ([(0, 5), (16_330, 6), (7_340, FIL_NULL)], 0, 4),
        ([(16_331, 5), (16_330, 6), (7_340, FIL_NULL)], 0, 4),
        // One byte more than is left, and one less.
        ([(16_330, 5), (16_330, 6), (7_341, FIL_NULL)], 2, 6),
        ([(16_330, 5), (16_330, 6), (7_339, FIL_NULL)], 2, 6),
        // The chain ends too early, or goes on.
        ([(16_330, 5), (16_330, FIL_NULL), (7_340, FIL_NULL)], 1, 5),
        ([(16_330, 5), (16_330, 6), (7_340, 4)], 2, 6),
    ];
    for (parts, good, page) in rows {
        let answers = read::<Brand>(rt.alloc(), parts, 9, Blank::new(1))?;
        assert!(rt;
            answers[..good]
                .iter()
                .all(|answer| *answer == Ok(Some(16_330))),
            "{page}"
        );
        assert!(rt; answers[good] == broken(page));
    }
    Ok(())
}
