//! The bytes that a text begins with, written into a room: runs of those that stand for themselves, and of escapes.

ghost use Rattle.std.specs.Prelude.{◌≡◌, ◌≢◌, ℕ, ◌+◌, ◌*◌, ◌<◌, ◌≤◌, length, slice_index, MatchOption, IfSome};
ghost use Rattle.row_text.specs.Values.{escape_letter};
ghost use Rattle.row_text.specs.calls.Texts.{IsWritten, byte_of};

use crate::escape::is_escaped;
use crate::read::lanes::{LANES, plain_length};

/// How many bytes are looked at one by one before a vector of them is, since escapes often stand close together.
const FEW: usize = 4;

/// How many bytes a step takes: a few one by one, and then a vector of them.
const STEP: usize = FEW + LANES;

/// What stands in the table of bytes for no byte.
const NONE: u8 = 255;

/// The byte that each letter stands for behind a backslash.
pub static BYTES: [u8; 256] = [
    255, 255, 255, 255, 255, 255, 255, 255, 255, 255, 255, 255, 255, 255, 255, 255, 255, 255, 255,
    255, 255, 255, 255, 255, 255, 255, 255, 255, 255, 255, 255, 255, 255, 255, 34, 255, 255, 255,
    255, 39, 255, 255, 255, 255, 255, 255, 255, 255, 0, 255, 255, 255, 255, 255, 255, 255, 255,
    255, 255, 255, 255, 255, 255, 255, 255, 255, 255, 255, 255, 255, 255, 255, 255, 255, 255, 255,
    255, 255, 255, 255, 255, 255, 255, 255, 255, 255, 255, 255, 255, 255, 26, 255, 92, 255, 255,
    255, 255, 255, 255, 255, 255, 255, 255, 255, 255, 255, 255, 255, 255, 255, 10, 255, 255, 255,
    13, 255, 255, 255, 255, 255, 255, 255, 255, 255, 255, 255, 255, 255, 255, 255, 255, 255, 255,
    255, 255, 255, 255, 255, 255, 255, 255, 255, 255, 255, 255, 255, 255, 255, 255, 255, 255, 255,
    255, 255, 255, 255, 255, 255, 255, 255, 255, 255, 255, 255, 255, 255, 255, 255, 255, 255, 255,
    255, 255, 255, 255, 255, 255, 255, 255, 255, 255, 255, 255, 255, 255, 255, 255, 255, 255, 255,
    255, 255, 255, 255, 255, 255, 255, 255, 255, 255, 255, 255, 255, 255, 255, 255, 255, 255, 255,
    255, 255, 255, 255, 255, 255, 255, 255, 255, 255, 255, 255, 255, 255, 255, 255, 255, 255, 255,
    255, 255, 255, 255, 255, 255, 255, 255, 255, 255, 255, 255, 255, 255, 255, 255, 255, 255, 255,
    255, 255, 255, 255, 255, 255, 255, 255, 255,
];

/// The byte that the letter stands for behind a backslash, 255 for none.
fn entry_of(letter: u8) -> u8
    ensures { result ≡ byte_of letter }
{
    BYTES[usize::from(letter)]
}

/// The byte that the letter stands for behind a backslash.
pub(crate) fn byte_of(letter: u8) -> Option<u8>
    ensures { MatchOption result ((byte : ℕ) → escape_letter byte ≡ letter → letter ≡ 0)
        (λ byte. (escape_letter byte ≡ letter) × (letter ≢ 0)) }
{
    let byte = entry_of(letter);
    if byte == NONE {
        return None;
    }
    Some(byte)
}

/// The byte of a text at this place, where it stands for itself.
#[inline(always)]
fn plain_at(text: &[u8], at: usize) -> Option<u8>
    requires { at < length text.now }
    ensures { IfSome result (λ byte. (byte ≡ slice_index text.now at) × (escape_letter byte ≡ 0)) }
{
    let byte = text[at];
    if is_escaped(byte) {
        return None;
    }
    Some(byte)
}

/// The byte that stands behind a backslash at this place.
#[inline(always)]
fn escaped_at(text: &[u8], at: usize) -> Option<u8>
    requires { at + 2 ≤ length text.now }
    ensures { IfSome result (λ byte. (slice_index text.now at ≡ 92)
        × (escape_letter byte ≡ slice_index text.now (at + 1)) × (slice_index text.now (at + 1) ≢ 0)) }
{
    if text[at] != b'\\' {
        return None;
    }
    byte_of(text[at + 1])
}

/// Goes on writing into the room, from its place `n`, the bytes of the text from `at` on, as long as they stand for
/// themselves, and so many at the most; answers how many.
#[inline(always)]
fn write_plain(text: &[u8], at: usize, room: &mut [u8], n: usize, most: usize) -> usize
    requires written { IsWritten text.now room.old n at }
    requires text { at + most ≤ length text.now }
    requires room { n + most ≤ length room.old }
    ensures written { IsWritten text.now room.new (n + result) (at + result) }
    ensures same { length room.new ≡ length room.old }
    ensures most { result ≤ most }
{
    for i in 0..most {
        let Some(byte) = plain_at(text, at + i) else {
            return i;
        };
        room[n + i] = byte;
    }
    most
}

/// Writes a vector of bytes, up to the first that is escaped. All of them are written, and those past the answer will
/// be written over.
#[inline(always)]
fn write_lanes(text: &[u8], at: usize, room: &mut [u8], n: usize) -> usize
    requires written { IsWritten text.now room.old n at }
    requires text { at + 16 ≤ length text.now }
    requires room { n + 16 ≤ length room.old }
    ensures written { IsWritten text.now room.new (n + result) (at + result) }
    ensures same { length room.new ≡ length room.old }
    ensures most { result ≤ 16 }
{
    let (_, rest) = text.split_at(at);
    let (run, _) = rest.split_at(LANES);
    room[n..n + LANES].copy_from_slice(run);
    plain_length(run)
}

/// Writes a few bytes one by one, and then a vector of them, up to the first that is escaped.
#[inline(always)]
fn write_step(text: &[u8], at: usize, room: &mut [u8], n: usize) -> usize
    requires written { IsWritten text.now room.old n at }
    requires text { at + 20 ≤ length text.now }
    requires room { n + 20 ≤ length room.old }
    ensures written { IsWritten text.now room.new (n + result) (at + result) }
    ensures same { length room.new ≡ length room.old }
    ensures most { result ≤ 20 }
{
    let few = write_plain(text, at, room, n, FEW);
    if few < FEW {
        return few;
    }
    FEW + write_lanes(text, at + FEW, room, n + FEW)
}

/// Goes on writing so the bytes of the text that stand behind backslashes, as long as they do; answers how many.
#[inline(always)]
fn write_escapes(text: &[u8], at: usize, room: &mut [u8], n: usize) -> usize
    requires written { IsWritten text.now room.old n at }
    ensures written { IsWritten text.now room.new (n + result) (at + 2 * result) }
    ensures same { length room.new ≡ length room.old }
{
    let most = ((text.len() - at) / 2).min(room.len() - n);
    for i in 0..most {
        let Some(byte) = escaped_at(text, at + 2 * i) else {
            return i;
        };
        room[n + i] = byte;
    }
    most
}

/// Fills the room with the bytes that a text begins with, as long as the text and the room have space for a whole step;
/// answers how many bytes of the text it read, and how many it wrote.
fn write_steps(text: &[u8], room: &mut [u8]) -> (usize, usize)
    ensures written { IsWritten text.now room.new result.1 result.0 }
    ensures same { length room.new ≡ length room.old }
{
    let mut at = 0;
    let mut n = 0;
    while text.len() - at >= STEP && room.len() - n >= STEP {
        let plain = write_step(text, at, room, n);
        at += plain;
        n += plain;
        if plain < STEP {
            let escapes = write_escapes(text, at, room, n);
            at += 2 * escapes;
            n += escapes;
            if escapes == 0 {
                return (at, n);
            }
        }
    }
    (at, n)
}

/// Fills the room with the bytes that a text begins with, in steps and the last ones one by one; answers how many bytes
/// of the text it read, and how many it wrote.
pub(crate) fn write_text(text: &[u8], room: &mut [u8]) -> (usize, usize)
    ensures written { IsWritten text.now room.new result.1 result.0 }
    ensures same { length room.new ≡ length room.old }
{
    let (mut at, mut n) = write_steps(text, room);
    while n < room.len() {
        let most = (text.len() - at).min(room.len() - n);
        let plain = write_plain(text, at, room, n, most);
        at += plain;
        n += plain;
        let escapes = write_escapes(text, at, room, n);
        at += 2 * escapes;
        n += escapes;
        if escapes == 0 {
            return (at, n);
        }
    }
    (at, n)
}
