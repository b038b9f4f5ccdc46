//! The standard output and the standard error as a text that is written.

ghost use Rattle.std.specs.Prelude.{◌≡◌, ℕ, None, is_err};
ghost use Rattle.page_source.specs.Faults.{HasCause, count_after};

use crate::counted::counted;
use crate::errors::Failed;
use crate::objects::ByteSink;
use crate::transfers::write_whole;
use std::io;
use std::io::{Print, Write};
use std::marker::Model;

/// One of the two standard streams. It tells nothing of what was written: all that is seen of it is
/// its count of faults.
#[derive(Drop)]
pub struct StdSink<P: Print> {
    stream: P,
    faults: u64,
}

impl<P: Print> Model for StdSink<P> {
    ghost Value = { ℕ };

    ghost view = { λ s. s.faults };
}

/// A stream as a writer of std, which tells nothing.
#[derive(Drop)]
struct Printed<'a, P: Print> {
    stream: &'a P,
}

impl<P: Print> Write for Printed<'_, P> {
    fn write(&mut self, piece: &[u8]) -> io::Result<usize> {
        self.stream.write_some(piece)
    }

    fn flush(&mut self) -> io::Result<()> {
        Ok(())
    }
}

impl<P: Print> StdSink<P> {
    /// The stream that this handle of the runtime names, as `rt.stdout()` or `rt.stderr()`.
    pub fn new(stream: P) -> Self
        ensures { result ≡ 0 }
    {
        StdSink { stream, faults: 0 }
    }
}

impl<P: Print> ByteSink for StdSink<P> {
    ghost written = { λ s. None };

    ghost faults = { λ count. count };

    fn put(&mut self, piece: &[u8]) -> Result<(), Failed>
        ensures count { self.new ≡ count_after self.old (is_err result) }
        ensures cause { HasCause self.old self.new result }
    {
        let mut stream = Printed {
            stream: &self.stream,
        };
        let done = write_whole(&mut stream, piece);
        counted(&mut self.faults, done)
    }
}
