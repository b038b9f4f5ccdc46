//! Bytes in hexadecimal digits.

ghost use Rattle.std.specs.Prelude.{◌≡◌, ◌*◌, ◌<◌, length, slice_index, map};
ghost use Rattle.hex.specs.Hex.{encode_lower, lower_digits};
ghost use Rattle.page_source.specs.Calls.{Puts};
ghost use Rattle.page_source.specs.Pages.{AreBytes};
ghost use Rattle.row_text.specs.calls.Bytes.{halves, half_digit};
ghost use Rattle.row_text.specs.Values.{hex_text, hex_or_empty};

use crate::plain::CHUNK;
use page_source::{ByteSink, Failed};

/// The digit of a number below 16, by comparison, so that a compiler can make it of many numbers at once.
#[inline(always)]
fn digit(number: u8) -> u8
    requires { number < 16 }
    ensures { result ≡ slice_index lower_digits number }
{
    if number < 10 {
        number + b'0'
    } else {
        number + (b'a' - 10)
    }
}

/// Fills the room with the two halves of each byte.
fn write_halves(bytes: &[u8], room: &mut [u8])
    requires { length room.old ≡ 2 * length bytes.now }
    ensures halves { room.new ≡ halves bytes.now }
    ensures bytes { AreBytes bytes.now }
{
    for i in 0..bytes.len() {
        room[2 * i] = bytes[i] / 16;
        room[2 * i + 1] = bytes[i] % 16;
    }
}

/// Turns each half of a byte to its digit.
fn write_digits(room: &mut [u8])
    ensures { room.new ≡ map half_digit room.old }
{
    for i in 0..room.len() {
        room[i] = digit(room[i] % 16);
    }
}

/// Fills the room with the two digits of each byte. All halves come before the first digit, so that a compiler makes
/// wide vectors of the digits.
fn write_hex(bytes: &[u8], room: &mut [u8])
    requires { length room.old ≡ 2 * length bytes.now }
    ensures { room.new ≡ encode_lower bytes.now }
{
    write_halves(bytes, room);
    write_digits(room);
}

/// Puts the two digits of each byte.
pub(crate) fn put_hex<O: ByteSink>(sink: &mut O, bytes: &[u8]) -> Result<(), Failed>
    ensures { Puts O.ByteSink sink.old sink.new (encode_lower bytes.now) result }
{
    let mut digits = [0; 2 * CHUNK];
    let mut rest = bytes;
    while !rest.is_empty() {
        let (chunk, more) = rest.split_at(rest.len().min(CHUNK));
        let digits = &mut digits[..2 * chunk.len()];
        write_hex(chunk, digits);
        sink.put(digits)?;
        rest = more;
    }
    Ok(())
}

/// Puts bytes as a number in hexadecimal digits.
pub(crate) fn put_hex_number<O: ByteSink>(sink: &mut O, bytes: &[u8]) -> Result<(), Failed>
    ensures { Puts O.ByteSink sink.old sink.new (hex_text bytes.now) result }
{
    sink.put(b"0x")?;
    put_hex(sink, bytes)
}

/// Puts bytes in hexadecimal digits, and an empty text for no bytes.
pub(crate) fn put_bytes<O: ByteSink>(sink: &mut O, bytes: &[u8]) -> Result<(), Failed>
    ensures { Puts O.ByteSink sink.old sink.new (hex_or_empty bytes.now) result }
{
    if bytes.is_empty() {
        sink.put(b"''")
    } else {
        put_hex_number(sink, bytes)
    }
}
