ghost use Rattle.std.specs.Prelude.{◌+◌, ◌≤◌, length};

use column_values::{ColumnType, FieldType, Utf8, compare};
use std::cmp::Ordering;

// Whether the two pieces together are a text of at most so many characters.
fn is_text_in_two(limit: u32, first: &[u8], second: &[u8]) -> bool
    requires { length first.now + length second.now ≤ 1000 }
{
    let mut text = Utf8::limit(limit);
    text.feed(first);
    text.feed(second);
    text.is_text()
}

/// A text of five characters, cut at each byte.
#[test]
fn counts_characters_in_pieces(rt: HostRuntime) {
    let text = b"\xC3\xA9a\xE2\x82\xACb\xF0\x9F\x98\x80".as_slice();
    for at in 0..text.len() + 1 {
        let (first, second) = text.split_at(at);
        let found = (
            is_text_in_two(5, first, second),
            is_text_in_two(4, first, second),
        );
        assert!(rt; found == (true, false), "{at}");
    }
}

#[test]
fn takes_any_bytes(rt: HostRuntime) {
    let mut any = Utf8::any();
    any.feed(b"\xFF");
    assert!(rt; any.is_text());
}

#[test]
fn compares_fields(rt: HostRuntime) {
    let texts = FieldType::Column(ColumnType::Varchar { n: 9 });
    let bytes = FieldType::Column(ColumnType::Varbinary { n: 9 });
    assert!(rt; compare(&texts, b"a", b"a  ") == Ordering::Equal);
    assert!(rt; compare(&texts, b"a\x1F", b"a") == Ordering::Less);
    assert!(rt; compare(&bytes, b"a ", b"a") == Ordering::Greater);
}
