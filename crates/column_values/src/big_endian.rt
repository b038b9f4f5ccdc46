//! Big-endian numbers among bytes (mach0data).

ghost use Rattle.std.specs.Prelude.{◌≡◌, ◌+◌, ◌<◌, ◌≤◌, ◌^◌, List, ◌++◌, length, OnOk};
ghost use Rattle.page_source.specs.Pages.{num, be_bytes};

use byteorder::{BigEndian, ByteOrder};
use page_source::{ByteList, NoMemory};

/// The number in the `width` bytes at `at`.
pub(crate) fn number_at(bytes: &[u8], at: usize, width: usize) -> u64
    requires most { width ≤ 8 }
    requires inside { at + width ≤ length bytes.now }
    ensures number { result ≡ num bytes.now at width }
    ensures fits { result < 256 ^ width }
{
    if width == 0 {
        0
    } else {
        BigEndian::read_uint(&bytes[at..at + width], width)
    }
}

/// Adds the `width` bytes of a number at the end.
pub(crate) fn push_number(list: &mut ByteList, width: usize, number: u64) -> Result<(), NoMemory>
    requires most { width ≤ 8 }
    requires fits { number < 256 ^ width }
    ensures ok { OnOk result (list.new ≡ list.old ++ be_bytes width number) }
{
    let mut room = [0; 8];
    if width > 0 {
        BigEndian::write_uint(&mut room, number, width);
    }
    list.extend(&room[..width])
}
