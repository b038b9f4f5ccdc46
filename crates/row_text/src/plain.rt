//! How far a text stands for itself, and where its first escape lies.

ghost use Rattle.std.specs.Prelude.{◌≡◌, ◌<◌, ◌≤◌, position, length, take, slice_index, Some, IfSome, IsNone, IsTrue};
ghost use Rattle.row_text.specs.Values.{IsPlain, is_escaped, escape_letter};

use crate::escape::{escape_letter, is_escaped, is_special};

/// How many bytes of a long text are looked at together, and how many are turned to digits, or to a text with escapes,
/// at a time.
pub(crate) const CHUNK: usize = 256;

/// How many bytes of a text are looked at together.
const RUN: usize = 32;

/// How many bytes of a text are looked at together, if fewer are left.
const SHORT_RUN: usize = 8;

/// Whether each byte of a run stands for itself. All are looked at, without a way out at the first that doesn't, so
/// that a compiler makes wide vectors of the loop.
#[inline(always)]
pub(crate) fn is_plain(run: &[u8]) -> bool
    ensures { IsTrue result → IsPlain run.now }
{
    let mut found = 0u8;
    for i in 0..run.len() {
        found = found.max(is_special(run[i]) as u8);
    }
    found == 0
}

/// How many bytes at the front of a text were found to stand for themselves, by runs of so many bytes. It is inlined,
/// so that the size of a run is known where the loop is.
#[inline(always)]
fn front_by(size: usize, text: &[u8]) -> usize
    requires { 1 ≤ size }
    ensures within { result ≤ length text.now }
    ensures plain { IsPlain (take result text.now) }
{
    let mut rest = text;
    let mut front = 0;
    while rest.len() >= size {
        let (run, more) = rest.split_at(size);
        if !is_plain(run) {
            return front;
        }
        front += size;
        rest = more;
    }
    front
}

/// How many bytes in front need no escape, if so many were found before.
#[inline(always)]
fn front_behind(size: usize, text: &[u8], found: usize) -> usize
    requires some { 1 ≤ size }
    requires inside { found ≤ length text.now }
    requires before { IsPlain (take found text.now) }
    ensures within { result ≤ length text.now }
    ensures plain { IsPlain (take result text.now) }
{
    let (_, rest) = text.split_at(found);
    found + front_by(size, rest)
}

/// How many bytes at the front of a text were found to stand for themselves, by runs that become shorter.
pub(crate) fn plain_front(text: &[u8]) -> usize
    ensures within { result ≤ length text.now }
    ensures plain { IsPlain (take result text.now) }
{
    let chunks = front_by(CHUNK, text);
    let runs = front_behind(RUN, text, chunks);
    front_behind(SHORT_RUN, text, runs)
}

/// Where the first byte lies that doesn't stand for itself, one after another.
pub(crate) fn first_by_bytes(text: &[u8]) -> Option<usize>
    ensures place { result ≡ position is_escaped text.now }
    ensures inside { IfSome result (λ at. at < length text.now) }
{
    text.iter().position(|byte| is_escaped(*byte))
}

/// The place of the first byte that is escaped, found by whole runs up to it.
fn first_escaped(text: &[u8]) -> Option<usize>
    ensures place { result ≡ position is_escaped text.now }
    ensures none { IsNone result → IsPlain text.now }
{
    let front = plain_front(text);
    let (_, rest) = text.split_at(front);
    match first_by_bytes(rest) {
        Some(at) => Some(front + at),
        None => None,
    }
}

/// The place of the first byte that is escaped, with the letter that stands for that byte.
pub(crate) fn first_escape(text: &[u8]) -> Option<(usize, u8)>
    ensures found { IfSome result (λ found. (found.0 < length text.now)
        × (position is_escaped text.now ≡ Some found.0)
        × (found.1 ≡ escape_letter (slice_index text.now found.0))) }
    ensures none { IsNone result → IsPlain text.now }
{
    let at = first_escaped(text)?;
    let letter = escape_letter(text[at])?;
    Some((at, letter))
}

/// Whether each byte of a text stands for itself.
pub(crate) fn is_plain_text(text: &[u8]) -> bool
    ensures { IsTrue result → IsPlain text.now }
{
    first_escaped(text).is_none()
}
