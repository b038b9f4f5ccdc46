//! A text in memory that is written.

ghost use Rattle.std.specs.Prelude.{◌≡◌, ◌↔◌, ◌⊎◌, ◌+◌, ◌<◌, ◌≤◌, [], ◌++◌, Some, length, vec_len, vec_capacity, IfOk};
ghost use Rattle.std.specs.Prelude.{OnOk, OnErr, IsErr, is_err};
ghost use Rattle.page_source.specs.Faults.{HasCause};
ghost use Rattle.page_source.specs.Memory.{HeldText, fresh_log, after_call, IsListed};

use super::calls::{Calls, Fails};
use crate::errors::{Failed, NoMemory};
use crate::objects::ByteSink;
use std::alloc::Global;
use std::marker::Model;

/// A text that is written into memory, up to a number of bytes.
#[derive(Debug, Drop)]
pub struct MemorySink {
    written: Vec<u8>,
    room: usize,
    calls: Calls,
}

impl Model for MemorySink {
    ghost Value = { HeldText };

    ghost view = { λ sink. record { written = sink.written.items; room = sink.room; calls = sink.calls } };

    ghost invariant = { λ sink. (vec_len sink.written ≤ sink.room) × (sink.room ≤ vec_capacity sink.written) };
}

impl MemorySink {
    /// An empty text with room for so many bytes, whose listed calls fail. It takes all its memory
    /// here.
    pub fn new(alloc: Global, room: usize, fails: Fails) -> Result<MemorySink, NoMemory>
        ensures { IfOk result (λ sink. sink ≡ record { written = []; room = room; calls = fresh_log fails }) }
    {
        Ok(MemorySink {
            written: Vec::with_capacity(alloc, room)?,
            room,
            calls: Calls::new(fails),
        })
    }

    /// What was written.
    pub fn bytes(&self) -> &[u8]
        ensures { result.now ≡ self.now.written }
    {
        &self.written
    }
}

impl ByteSink for MemorySink {
    ghost written = { λ sink. Some sink.written };

    ghost faults = { λ sink. sink.calls.faults };

    fn put(&mut self, piece: &[u8]) -> Result<(), Failed>
        ensures ok { OnOk result (self.new.written ≡ self.old.written ++ piece.now) }
        ensures failed { IsErr result
            ↔ (IsListed self.old.calls ⊎ (self.old.room < length self.old.written + length piece.now)) }
        ensures err { OnErr result (self.new.written ≡ self.old.written) }

        ensures room { self.new.room ≡ self.old.room }
        ensures calls { self.new.calls ≡ after_call self.old.calls (is_err result) }
        ensures cause { HasCause self.old.calls.faults self.new.calls.faults result }
    {
        let fits = piece.len() <= self.room - self.written.len();
        self.calls.next(fits)?;
        self.written.extend_from_slice(piece).unwrap();
        Ok(())
    }
}
