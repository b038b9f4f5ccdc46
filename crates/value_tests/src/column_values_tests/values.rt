use super::{decimal, int, is_known};
use column_values::{ColumnType, decode, encode, is_value};
use std::test::Fail;

#[test]
fn spells_values_of_each_type_again(rt: HostRuntime) -> Result<(), Fail> {
    let table: [(ColumnType, &[u8]); 15] = [
        (int(1, true), &[0x00]),
        (int(2, false), &[0x01, 0x02]),
        (int(3, true), &[0xFF, 0xFF, 0xFF]),
        (int(4, true), &[0x7F, 0xFF, 0xFF, 0xFF]),
        (int(8, false), b"\xFF\xFF\xFF\xFF\xFF\xFF\xFF\xFF"),
        (decimal(14, 4), b"\x7E\xF2\x04\xC7\x2D\xFB\x2D"),
        (ColumnType::Year, &[0x70]),
        (ColumnType::Date, &[0x8F, 0xB8, 0x21]),
        (
            ColumnType::DateTime { f: 5 },
            b"\x99\x64\xBA\x10\x83\x01\xE2\x3A",
        ),
        (
            ColumnType::Timestamp { f: 6 },
            b"\x00\x00\x00\x01\x0F\x42\x3F",
        ),
        (ColumnType::Char { n: 5 }, b" a b "),
        (ColumnType::Binary { n: 3 }, b"a  "),
        (ColumnType::Varchar { n: 3 }, b"a  "),
        (ColumnType::Blob { n: 255 }, b"\x00\xFF"),
        (ColumnType::Utf8Varchar { n: 1 }, b"\xF0\x9F\x98\x80"),
    ];
    for (kind, bytes) in table {
        assert!(rt; is_known(&kind));
        assert!(rt; is_value(&kind, bytes), "{kind:?}");
        let value = decode(rt.alloc(), &kind, bytes)?;
        let again = encode(rt.alloc(), &kind, &value)?;
        assert!(rt; again.bytes() == bytes, "{kind:?}");
    }
    Ok(())
}
