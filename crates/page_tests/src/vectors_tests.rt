//! The files are those that an independent reading of the format puts together.

use fil_frame::crc32c;
use page_source::PAGE_SIZE;
use std::test::Fail;
use vectors::{Which, edited, file};

#[test]
fn makes_each_file(rt: HostRuntime) -> Result<(), Fail> {
    // The number of pages, and the sum of all bytes.
    let files = [
        (Which::A, 6, 0x2310_DC0D),
        (Which::B, 6, 0x9A01_E7CA),
        (Which::BF, 6, 0x38FF_C316),
        (Which::C, 6, 0xF047_B140),
        (Which::D, 6, 0x87DF_7D3D),
        (Which::E, 8, 0xE007_4EC6),
        (Which::G, 8, 0x5081_2942),
        (Which::L, 128, 0x741B_C2A3),
    ];
    for (which, pages, sum) in files {
        let bytes = file(rt.alloc(), which)?;
        assert!(rt; bytes.bytes().len() == pages * PAGE_SIZE, "{which:?}");
        assert!(rt; crc32c(bytes.bytes()) == sum, "{which:?}");
    }
    Ok(())
}

/// Page 6 isn't there, and three bytes don't fit at 16382.
#[test]
fn puts_edits_where_they_fit(rt: HostRuntime) -> Result<(), Fail> {
    let bytes = edited(
        rt.alloc(),
        Which::C,
        &[
            &[(5, 8, b"\0\0\0\x05"), (5, 20, b"\x01\x02\x03\x04")],
            &[(6, 0, b"none"), (4, 16382, b"\0\0\0"), (4, 20000, b"\0")],
        ],
    )?;
    assert!(rt; crc32c(bytes.bytes()) == 0xB9BE_7C27);
    Ok(())
}
