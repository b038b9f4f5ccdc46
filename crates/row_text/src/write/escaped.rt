//! A text with its escapes, made in a room of twice its length.

ghost use Rattle.std.specs.Prelude.{◌≡◌, ◌≢◌, ◌*◌, ◌<◌, ◌≤◌, length, take, slice_index};
ghost use Rattle.row_text.specs.Values.{IsPlain, escape_letter, escaped_text};

use crate::escape::{front_of, letter_of, width_of};
use crate::plain::first_by_bytes;

/// How many bytes of a text with escapes are copied together.
const GROUP: usize = 16;

/// How many bytes of a text were read, and how many were written for them.
#[derive(Clone, Copy)]
struct Written {
    read: usize,
    written: usize,
}

/// How many bytes at the front of a group stand for themselves.
#[inline(always)]
fn plain_bytes(group: &[u8]) -> usize
    requires { length group.now ≡ 16 }
    ensures within { result ≤ 16 }
    ensures plain { IsPlain (take result group.now) }
    ensures found { result < 16 → escape_letter (slice_index group.now result) ≢ 0 }
{
    match first_by_bytes(group) {
        Some(at) => at,
        None => GROUP,
    }
}

/// Copies bytes to the front of the room.
#[inline(always)]
fn copy_front(room: &mut [u8], bytes: &[u8])
    requires { length bytes.now ≤ length room.old }
    ensures size { length room.new ≡ length room.old }
    ensures front { take (length bytes.now) room.new ≡ bytes.now }
{
    room[..bytes.len()].copy_from_slice(bytes);
}

/// Writes the front of a text with its escapes into the room: a group of bytes, or those up to its first escape.
#[inline(always)]
fn write_group(text: &[u8], room: &mut [u8]) -> Written
    requires text { 16 ≤ length text.now }
    requires room { 32 ≤ length room.old }
    ensures some { 1 ≤ result.read }
    ensures read { result.read ≤ 16 }
    ensures few { result.written ≤ 2 * result.read }
    ensures fits { result.written ≤ length room.new }
    ensures text { take result.written room.new ≡ escaped_text (take result.read text.now) }
{
    let group = &text[..GROUP];
    let plain = plain_bytes(group);
    copy_front(room, group);
    if plain == GROUP {
        return Written {
            read: GROUP,
            written: GROUP,
        };
    }
    room[plain] = b'\\';
    room[plain + 1] = letter_of(text[plain]);
    Written {
        read: plain + 1,
        written: plain + 2,
    }
}

/// Writes a text with its escapes into the room, as far as groups go.
fn write_groups(text: &[u8], room: &mut [u8]) -> Written
    requires { 2 * length text.now ≤ length room.old }
    ensures read { result.read ≤ length text.now }
    ensures few { result.written ≤ 2 * result.read }
    ensures text { take result.written room.new ≡ escaped_text (take result.read text.now) }
{
    let mut done = Written {
        read: 0,
        written: 0,
    };
    while done.read + GROUP <= text.len() {
        let (_, rest) = text.split_at(done.read);
        let more = write_group(rest, &mut room[done.written..]);
        done.read += more.read;
        done.written += more.written;
    }
    done
}

/// Writes a text with its escapes into the room, and answers how many bytes that takes. Two bytes are written for each
/// byte, the second of which the next one may overwrite, so that no way depends on the text.
fn write_rest(text: &[u8], room: &mut [u8]) -> usize
    requires { 2 * length text.now ≤ length room.old }
    ensures most { result ≤ length room.new }
    ensures text { take result room.new ≡ escaped_text text.now }
{
    let mut n = 0;
    for i in 0..text.len() {
        let letter = letter_of(text[i]);
        room[n] = front_of(text[i], letter);
        room[n + 1] = letter;
        n += width_of(letter);
    }
    n
}

/// Writes a text with its escapes into the room, and answers how many bytes that takes.
pub(crate) fn write_escaped(text: &[u8], room: &mut [u8]) -> usize
    requires { 2 * length text.now ≤ length room.old }
    ensures most { result ≤ length room.new }
    ensures text { take result room.new ≡ escaped_text text.now }
{
    let groups = write_groups(text, room);
    let (_, rest) = text.split_at(groups.read);
    groups.written + write_rest(rest, &mut room[groups.written..])
}
