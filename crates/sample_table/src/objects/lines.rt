//! The lines of the rows, as they are read.

ghost use Rattle.std.specs.Prelude.{◌≡◌, ◌<◌, ◌++◌, min, Some, false, length, take, drop, is_err, IfOk};

use page_source::{ByteList, ByteSource, Failed, Fails, MemoryBytes, NoMemory};
use std::alloc::Global;
use std::marker::Model;

/// A text in memory none of whose calls fails.
#[derive(Drop)]
pub(crate) struct LineText {
    text: MemoryBytes,
}

impl Model for LineText {
    ghost use Rattle.std.specs.Prelude.{◌≡◌, List, ℕ, []};

    ghost Value = { List ℕ };

    ghost view = { λ lines. lines.text.bytes };

    ghost invariant = { λ lines. lines.text.calls.listed ≡ [] };
}

impl LineText {
    /// A text of these bytes.
    pub(crate) fn new(alloc: Global, bytes: ByteList) -> Result<LineText, NoMemory>
        ensures { IfOk result (λ lines. lines ≡ bytes) }
    {
        Ok(LineText {
            text: MemoryBytes::new(bytes, Fails::of(alloc, &[])?),
        })
    }
}

impl ByteSource for LineText {
    ghost left = { λ lines. Some lines };

    ghost faults = { λ _. 0 };

    fn read(&mut self, buffer: &mut [u8]) -> Result<usize, Failed>
        requires { 0 < length buffer.old }
        ensures count { IfOk result (λ k. k ≡ min (length buffer.old) (length self.old)) }
        ensures taken { IfOk result (λ k. buffer.new ≡ take k self.old ++ drop k buffer.old) }
        ensures rest { IfOk result (λ k. self.new ≡ drop k self.old) }
        ensures never { is_err result ≡ false }
    {
        self.text.read(buffer)
    }
}
