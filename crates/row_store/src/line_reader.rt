//! A text, line by line.

ghost use Rattle.std.specs.Prelude.{◌≡◌, ◌≢◌, ℕ, ◌+◌, ◌≤◌, ◌<◌, ◌⊎◌, [], length, take, drop, slice_index, IfOk, IfSome};
ghost use Rattle.std.specs.Prelude.{OnOk};
ghost use Rattle.row_store.specs.calls.Lines.{IsFeedPlace, ComeBehind, GrewBehind, IsAtEnd, IsOverlong, FindsLine};
ghost use Rattle.row_store.specs.calls.Lines.{end_size, IsFewAhead, BlamesText};
ghost use Rattle.row_store.specs.ReadRows.{buffer_size};

use crate::stop::ReadStop;
use page_source::ByteSource;
use std::alloc::Global;
use std::marker::Model;

/// How many bytes are asked for at a time.
const CHUNK: usize = 65_536;

/// How many bytes a line may have, its LF counted.
pub(crate) const LONGEST_LINE: usize = 16_777_216;

/// The next line of a text.
#[derive(Clone, Copy, Debug, PartialEq, Eq)]
pub(crate) struct NextLine {
    /// How many bytes the line has before its end, as far as they were read.
    pub(crate) size: usize,
    /// Whether the LF of the line is there. A line without one ends with the text, or is longer than a line may be.
    pub(crate) feed: bool,
}

/// The place of the first LF from `from` on, or the end.
fn feed_from(bytes: &[u8], from: usize) -> usize
    requires { from ≤ length bytes.now }
    ensures least { from ≤ result }
    ensures within { result ≤ length bytes.now }
    ensures lacks { (k : ℕ) → from ≤ k → k < result → slice_index bytes.now k ≢ 10 }
    ensures feed { result < length bytes.now → slice_index bytes.now result ≡ 10 }
{
    for i in from..bytes.len() {
        if bytes[i] == b'\n' {
            return i;
        }
    }
    bytes.len()
}

/// Lets go of the first bytes.
fn remove_front(bytes: &mut Vec<u8>, count: usize)
    requires { count ≤ length bytes.old.items }
    ensures { bytes.new.items ≡ drop count bytes.old.items }
{
    if count > 0 {
        let rest = bytes.len() - count;
        bytes.copy_within(count.., 0);
        bytes.truncate(rest);
    }
}

/// Reads bytes of the text behind those that are there, and answers how many.
fn read_behind<R: ByteSource>(text: &mut R, bytes: &mut Vec<u8>) -> Result<usize, ReadStop>
    requires { length bytes.old.items ≤ 16777216 }
    ensures come { IfOk result (λ count.
        ComeBehind (R.left text.old) (R.left text.new) bytes.old.items bytes.new.items count) }
    ensures cause { BlamesText (R.faults text.old) (R.faults text.new) result }
{
    let end = bytes.len();
    bytes.resize(end + CHUNK, 0)?;
    let count = text.read(&mut bytes[end..])?;
    bytes.truncate(end + count);
    Ok(count)
}

/// The bytes of a text that were read and not yet taken. They are those of a line and a chunk at the most.
#[derive(Drop)]
pub(crate) struct LineReader {
    bytes: Vec<u8>,
    /// Where the bytes that weren't taken begin.
    start: usize,
}

impl Model for LineReader {
    ghost use Rattle.std.specs.Prelude.{List, ℕ, ◌≤◌, drop, length};

    ghost Value = { List ℕ };

    ghost view = { λ reader. drop reader.start reader.bytes.items };

    ghost invariant = { λ reader. reader.start ≤ length reader.bytes.items };
}

impl LineReader {
    /// Nothing was read yet.
    pub(crate) fn new(alloc: Global) -> LineReader
        ensures { result ≡ [] }
    {
        LineReader {
            bytes: Vec::new(alloc),
            start: 0,
        }
    }

    /// What is ahead.
    fn ahead(&self) -> &[u8]
        ensures { result.now ≡ self.now }
    {
        &self.bytes[self.start..]
    }

    /// Reads on, and answers how many bytes came: none at the end of the text alone.
    fn read_on<R: ByteSource>(&mut self, text: &mut R) -> Result<usize, ReadStop>
        requires { length self.old ≤ 16777216 }
        ensures come { IfOk result (λ count.
            ComeBehind (R.left text.old) (R.left text.new) self.old self.new count) }
        ensures cause { BlamesText (R.faults text.old) (R.faults text.new) result }
    {
        remove_front(&mut self.bytes, self.start);
        self.start = 0;
        read_behind(text, &mut self.bytes)
    }

    /// Reads until the first line ahead is whole or too long, and answers where its LF is, or the end.
    fn reach_feed<R: ByteSource>(&mut self, text: &mut R) -> Result<usize, ReadStop>
        requires { length self.old ≤ buffer_size }
        ensures few { IfOk result (IsFewAhead self.new) }
        ensures grew { OnOk result (GrewBehind (R.left text.old) (R.left text.new) self.old self.new) }
        ensures place { IfOk result (IsFeedPlace self.new) }
        ensures whole { IfOk result (λ size.
            size ≡ length self.new → IsOverlong size ⊎ IsAtEnd (R.left text.new)) }
        ensures cause { BlamesText (R.faults text.old) (R.faults text.new) result }
    {
        let mut size = feed_from(self.ahead(), 0);
        while size == self.ahead().len() && size <= LONGEST_LINE {
            if self.read_on(text)? == 0 {
                return Ok(size);
            }
            size = feed_from(self.ahead(), size);
        }
        Ok(size)
    }

    /// Reads until the next line is there, and answers its size; none at the end of the text.
    pub(crate) fn next<R: ByteSource>(&mut self, text: &mut R) -> Result<Option<NextLine>, ReadStop>
        requires { length self.old ≤ buffer_size }
        ensures few { IfOk result (λ found. IfSome found (λ line. IsFewAhead self.new line.size)) }
        ensures grew { OnOk result (GrewBehind (R.left text.old) (R.left text.new) self.old self.new) }
        ensures line { IfOk result (FindsLine self.new (R.left text.new)) }
        ensures cause { BlamesText (R.faults text.old) (R.faults text.new) result }
    {
        let size = self.reach_feed(text)?;
        let feed = size < self.ahead().len();
        if size == 0 && !feed {
            return Ok(None);
        }
        Ok(Some(NextLine { size, feed }))
    }

    /// The bytes of the next line.
    pub(crate) fn line(&self, size: usize) -> &[u8]
        requires { size ≤ length self.now }
        ensures { result.now ≡ take size self.now }
    {
        &self.ahead()[..size]
    }

    /// Takes a line with its end.
    pub(crate) fn take(&mut self, line: NextLine)
        requires { line.size + end_size line.feed ≤ length self.old }
        ensures { self.new ≡ drop (line.size + end_size line.feed) self.old }
    {
        self.start += line.size;
        self.start += usize::from(line.feed);
    }
}
