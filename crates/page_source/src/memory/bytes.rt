//! A text in memory that is read.

ghost use Rattle.std.specs.Prelude.{◌≡◌, ◌↔◌, ◌<◌, ◌≤◌, ◌++◌, min, Some, length, take, drop, IfOk, OnErr, IsErr};
ghost use Rattle.std.specs.Prelude.{is_err};
ghost use Rattle.page_source.specs.Faults.{HasCause};
ghost use Rattle.page_source.specs.Memory.{HeldBytes, fresh_log, after_call, IsListed};

use super::calls::{Calls, Fails};
use crate::bytes::ByteList;
use crate::errors::Failed;
use crate::objects::ByteSource;
use std::marker::Model;

/// A text held in memory, and how much of it was taken.
#[derive(Debug, Drop)]
pub struct MemoryBytes {
    bytes: ByteList,
    taken: usize,
    calls: Calls,
}

impl Model for MemoryBytes {
    ghost Value = { HeldBytes };

    ghost view = { λ text. record { bytes = drop text.taken text.bytes; calls = text.calls } };

    ghost invariant = { λ text. text.taken ≤ length text.bytes };
}

impl MemoryBytes {
    /// A text of these bytes, whose listed calls fail.
    pub fn new(bytes: ByteList, fails: Fails) -> MemoryBytes
        ensures { result ≡ record { bytes = bytes; calls = fresh_log fails } }
    {
        MemoryBytes {
            bytes,
            taken: 0,
            calls: Calls::new(fails),
        }
    }
}

impl ByteSource for MemoryBytes {
    ghost left = { λ text. Some text.bytes };

    ghost faults = { λ text. text.calls.faults };

    fn read(&mut self, buffer: &mut [u8]) -> Result<usize, Failed>
        requires { 0 < length buffer.old }
        ensures count { IfOk result (λ k. k ≡ min (length buffer.old) (length self.old.bytes)) }
        ensures taken { IfOk result (λ k. buffer.new ≡ take k self.old.bytes ++ drop k buffer.old) }
        ensures rest { IfOk result (λ k. self.new.bytes ≡ drop k self.old.bytes) }

        ensures failed { IsErr result ↔ IsListed self.old.calls }
        ensures kept { OnErr result (buffer.new ≡ buffer.old) }
        ensures left { OnErr result (self.new.bytes ≡ self.old.bytes) }

        ensures calls { self.new.calls ≡ after_call self.old.calls (is_err result) }
        ensures cause { HasCause self.old.calls.faults self.new.calls.faults result }
    {
        self.calls.next(true)?;
        let left = &self.bytes.bytes()[self.taken..];
        let count = left.len().min(buffer.len());
        buffer[..count].copy_from_slice(&left[..count]);
        self.taken += count;
        Ok(count)
    }
}
