//! Text on its way to the sink.

ghost use Rattle.std.specs.Prelude.{◌≡◌, ◌+◌, ◌-◌, ◌++◌, ◌<◌, ◌≤◌, [], Some, length, take, IfOk, OnOk};
ghost use Rattle.page_source.specs.Calls.{Puts};
ghost use Rattle.page_source.specs.Faults.{Rose};
ghost use Rattle.sql_dump.specs.Buffer.{Held};

use page_source::{ByteSink, Failed, NoMemory};
use std::alloc::Global;
use std::marker::Model;

/// The bytes of the buffer.
const ROOM: usize = 65_536;

/// A text that waits for more, so that the sink is asked for few writes. It takes all its memory before the first
/// line, and is full once it has refused a piece.
#[derive(Debug, Drop)]
pub struct Buffer {
    /// The text, and after it bytes of no meaning.
    room: Vec<u8>,
    used: usize,
    refused: u64,
}

impl Model for Buffer {
    ghost Value = { Held };

    ghost view = { λ buffer. record { bytes = take buffer.used buffer.room.items; refused = buffer.refused } };

    ghost invariant = { λ buffer. (length buffer.room.items ≡ 65536) × (buffer.used ≤ 65536)
        × (0 < buffer.refused → buffer.used ≡ 65536) };
}

/// Writes a piece into the room from `at` on. It is inlined, so that a piece of known length is a store or two.
#[inline(always)]
fn paste(room: &mut [u8], at: usize, piece: &[u8])
    requires { at + length piece.now ≤ length room.old }
    ensures size { length room.new ≡ length room.old }
    ensures text { take (at + length piece.now) room.new ≡ take at room.old ++ piece.now }
{
    room[at..at + piece.len()].copy_from_slice(piece);
}

impl Buffer {
    /// An empty buffer.
    pub fn new(alloc: Global) -> Result<Buffer, NoMemory>
        ensures { IfOk result (λ buffer. buffer ≡ record { bytes = []; refused = 0 }) }
    {
        Ok(Buffer {
            room: Vec::from_elem(alloc, 0, ROOM)?,
            used: 0,
            refused: 0,
        })
    }

    /// How many bytes the buffer holds.
    pub fn len(&self) -> usize
        ensures count { result ≡ length self.now.bytes }
        ensures full { 0 < self.now.refused → result ≡ 65536 }
    {
        self.used
    }

    /// The bytes that the buffer holds.
    pub fn bytes(&self) -> &[u8]
        ensures { result.now ≡ self.now.bytes }
    {
        &self.room[..self.used]
    }

    /// Forgets all but the first bytes that the buffer holds, and what it refused.
    pub fn truncate(&mut self, len: usize)
        ensures bytes { self.new.bytes ≡ take len self.old.bytes }
        ensures refused { self.new.refused ≡ 0 }
    {
        self.used = self.used.min(len);
        self.refused = 0;
    }

    /// Puts what the buffer holds, and empties the buffer.
    pub fn flush<O: ByteSink>(&mut self, sink: &mut O) -> Result<(), Failed>
        ensures puts { Puts O.ByteSink sink.old sink.new self.old.bytes result }
        ensures empty { OnOk result (self.new.bytes ≡ []) }
    {
        sink.put(self.bytes())?;
        self.truncate(0);
        Ok(())
    }

    /// Takes as much of a piece as there is room for, which is less than all of it.
    #[cold]
    #[inline(never)]
    fn refuse(&mut self, piece: &[u8])
        requires { 65536 ≤ length self.old.bytes + length piece.now }
        ensures bytes { self.new.bytes ≡ self.old.bytes ++ take (65536 - length self.old.bytes) piece.now }
        ensures refused { self.old.refused ≤ self.new.refused }
        ensures rose { Rose self.old.refused self.new.refused }
    {
        let left = ROOM - self.used;
        paste(&mut self.room, self.used, &piece[..left]);
        self.used = ROOM;
        self.refused = self.refused.saturating_add(1);
    }
}

impl ByteSink for Buffer {
    ghost written = { λ buffer. Some buffer.bytes };

    ghost faults = { λ buffer. buffer.refused };

    #[inline(always)]
    fn put(&mut self, piece: &[u8]) -> Result<(), Failed> {
        if piece.len() > ROOM - self.used {
            self.refuse(piece);
            return Err(Failed);
        }
        paste(&mut self.room, self.used, piece);
        self.used += piece.len();
        Ok(())
    }
}
