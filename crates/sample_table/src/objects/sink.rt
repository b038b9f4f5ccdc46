//! A text that is written and kept.

ghost use Rattle.std.specs.Prelude.{◌≡◌, [], ◌++◌, Some, is_err, OnOk, OnErr};
ghost use Rattle.page_source.specs.Faults.{HasCause, count_after};

use page_source::{ByteList, ByteSink, Failed};
use std::alloc::Global;

/// A text that keeps all its bytes. Its one fault is want of memory, and then it is as before.
#[derive(Drop)]
pub(crate) struct GrowingSink {
    pub(crate) bytes: ByteList,
    faults: u64,
}

impl GrowingSink {
    /// No byte yet.
    pub(crate) fn new(alloc: Global) -> GrowingSink
        ensures { result.bytes ≡ [] }
    {
        GrowingSink {
            bytes: ByteList::new(alloc),
            faults: 0,
        }
    }
}

impl ByteSink for GrowingSink {
    ghost written = { λ sink. Some sink.bytes };

    ghost faults = { λ sink. sink.faults };

    fn put(&mut self, piece: &[u8]) -> Result<(), Failed>
        ensures ok { OnOk result (self.new.bytes ≡ self.old.bytes ++ piece.now) }
        ensures failed { OnErr result (self.new.bytes ≡ self.old.bytes) }
        ensures counts { self.new.faults ≡ count_after self.old.faults (is_err result) }
        ensures cause { HasCause self.old.faults self.new.faults result }
    {
        if self.bytes.extend(piece).is_err() {
            self.faults = self.faults.saturating_add(1);
            return Err(Failed);
        }
        Ok(())
    }
}
