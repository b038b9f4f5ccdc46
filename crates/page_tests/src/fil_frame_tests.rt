//! Checksums of known bytes, pages against a plain program that goes bit by bit, and frames.

ghost use Rattle.std.specs.Prelude.{◌<◌};

use fil_frame::{SumKind, crc32c, fold, frame_fault, kind, page_sum, seal, seal_as, sum_kind};
use page_source::{NoMemory, PAGE_SIZE, Page, read_be, write_be};
use std::alloc::Global;
use std::test::Fail;

/// CRC-32C, bit by bit.
fn plain_crc32c(bytes: &[u8]) -> u32 {
    let mut state = 0xFFFF_FFFF_u32;
    for byte in bytes {
        for k in 0..8u32 {
            let differs = state % 2 != u32::from(*byte >> k & 1);
            state = state / 2 ^ if differs { 0x82F6_3B78 } else { 0 };
        }
    }
    state ^ 0xFFFF_FFFF
}

fn plain_page_sum(page: &Page) -> u32 {
    plain_crc32c(&page.bytes()[4..26]) ^ plain_crc32c(&page.bytes()[38..16376])
}

/// The check value of the catalogues of CRCs, the examples of RFC 3720, B.4, and short lists.
#[test]
fn gives_known_checksums(rt: HostRuntime) {
    let rising: [u8; 40] = [
        0, 1, 2, 3, 4, 5, 6, 7, 8, 9, 10, 11, 12, 13, 14, 15, 16, 17, 18, 19, 20, 21, 22, 23, 24,
        25, 26, 27, 28, 29, 30, 31, 32, 33, 34, 35, 36, 37, 38, 39,
    ];
    let cases: [(&[u8], u32); 6] = [
        (b"", 0),
        (b"123456789", 0xE306_9283),
        (&[0; 32], 0x8A91_36AA),
        (&[0xFF; 32], 0x62A8_AB43),
        (&rising[..32], 0x46DD_794E),
        (b"a", 0xC1D0_4330),
    ];
    for (bytes, want) in cases {
        assert!(rt; crc32c(bytes) == want, "of {bytes:?}");
    }
    for length in 0..=40usize {
        let bytes = &rising[..length];
        assert!(rt; crc32c(bytes) == plain_crc32c(bytes), "of {bytes:?}");
    }
}

#[test]
fn gives_known_folds(rt: HostRuntime) {
    let cases: [(&[u8], u32); 4] = [
        (b"", 0),
        (&[0], 0xC354_9A87),
        (&[1], 0xC354_9B88),
        (&[0, 0], 0xD37B_B700),
    ];
    for (bytes, want) in cases {
        assert!(rt; fold(bytes) == want, "of {bytes:?}");
    }
}

/// A page of bytes that Marsaglia's xorshift generator gives.
fn noise(alloc: Global, seed: u64) -> Result<Page, NoMemory> {
    let mut page = Page::zeroed(alloc)?;
    let mut x = seed;
    for at in 0..PAGE_SIZE {
        x ^= x << 13;
        x ^= x >> 7;
        x ^= x << 17;
        page.put_bytes(at, &[(x % 256) as u8]);
    }
    Ok(page)
}

#[test]
fn sums_pages_as_the_plain_program_does(rt: HostRuntime) -> Result<(), Fail> {
    let cases: [(u64, u32); 4] = [
        (1, 0xEE4D_6FB4),
        (2, 0x3B2D_F5D4),
        (3, 0xCA9D_4EB2),
        (0x1234_5678_9ABC_DEF1, 0x6595_ABF9),
    ];
    for (seed, want) in cases {
        let page = noise(rt.alloc(), seed)?;
        assert!(rt; page_sum(&page) == want, "from {seed}");
        assert!(rt; plain_page_sum(&page) == want, "from {seed}");
    }
    Ok(())
}

/// A page of bytes 0xA5 under its frame.
fn sealed_page(alloc: Global, sum: SumKind) -> Result<Page, NoMemory> {
    let mut page = Page::zeroed(alloc)?;
    page.put_bytes(0, &[0xA5; PAGE_SIZE]);
    seal_as(&mut page, 7, 23, 0x0102_0304_0506_0708, 17855, sum);
    Ok(page)
}

/// Whether the frame is broken once the byte at `at` is changed.
fn breaks_at(page: &mut Page, at: usize) -> bool
    requires { at < 16384 }
{
    let byte = page.bytes()[at];
    page.put_bytes(at, &[byte ^ 1]);
    let broken = frame_fault(page, 7, 23);
    page.put_bytes(at, &[byte]);
    broken
}

#[test]
fn seals_pages(rt: HostRuntime) -> Result<(), Fail> {
    let page = sealed_page(rt.alloc(), SumKind::Crc32)?;
    let header = [
        0xBF, 0x57, 0xF9, 0xD7, 0, 0, 0, 7, 0xA5, 0xA5, 0xA5, 0xA5, 0xA5, 0xA5, 0xA5, 0xA5, 1, 2,
        3, 4, 5, 6, 7, 8, 0x45, 0xBF, 0xA5, 0xA5, 0xA5, 0xA5, 0xA5, 0xA5, 0xA5, 0xA5, 0, 0, 0, 23,
        0xA5,
    ];
    let trailer = [0xA5, 0xBF, 0x57, 0xF9, 0xD7, 5, 6, 7, 8];
    assert!(rt; page.bytes().starts_with(&header));
    assert!(rt; page.bytes().ends_with(&trailer));
    assert!(rt; page_sum(&page) == 0xBF57_F9D7 && kind(&page) == 17855);
    Ok(())
}

/// Only the flush LSN may be any.
#[test]
fn finds_a_broken_frame(rt: HostRuntime) -> Result<(), Fail> {
    let mut page = sealed_page(rt.alloc(), SumKind::Crc32)?;
    for (n, space, broken) in [(7, 23, false), (8, 23, true), (7, 24, true)] {
        assert!(rt; frame_fault(&page, n, space) == broken);
    }
    for at in [
        0, 3, 4, 7, 8, 15, 16, 19, 20, 23, 24, 25, 26, 33, 34, 37, 38, 16375, 16376, 16379, 16380,
        16383,
    ] {
        assert!(rt; at < PAGE_SIZE);
        assert!(rt;
            breaks_at(&mut page, at) == !(26..34).contains(&at),
            "at {at}"
        );
    }
    Ok(())
}

/// The two checksums of a page, their kind, and whether the frame is broken.
fn sums(page: &Page) -> (u64, u64, Option<SumKind>, bool) {
    (
        read_be::<4>(page, 0),
        read_be::<4>(page, 16376),
        sum_kind(page),
        frame_fault(page, 7, 23),
    )
}

#[test]
fn knows_the_kinds_of_checksums(rt: HostRuntime) -> Result<(), Fail> {
    let cases = [
        (SumKind::Crc32, 0xBF57_F9D7, 0xBF57_F9D7),
        (SumKind::Innodb, 0x0614_C315, 0xA9AD_1935),
        (SumKind::Fixed, 0xDEAD_BEEF, 0xDEAD_BEEF),
    ];
    for (sum, first, second) in cases {
        let mut page = sealed_page(rt.alloc(), sum)?;
        assert!(rt; sums(&page) == (first, second, Some(sum), false), "{sum:?}");
        // The echo belongs to the frame of each kind.
        assert!(rt; breaks_at(&mut page, 16383), "{sum:?}");
        write_be::<4>(&mut page, 16376, 0xDEAD_BEEF);
        assert!(rt;
            frame_fault(&page, 7, 23) == (sum != SumKind::Fixed),
            "{sum:?}"
        );
    }
    Ok(())
}

#[test]
fn seals_a_page_of_another_kind_anew(rt: HostRuntime) -> Result<(), Fail> {
    let mut page = sealed_page(rt.alloc(), SumKind::Fixed)?;
    seal(&mut page, 7, 23, 1, 0);
    assert!(rt; sum_kind(&page) == Some(SumKind::Crc32));
    Ok(())
}
