//! A standard stream that takes a piece in turns.

use page_source::{ByteList, ByteSink, Failed, StdSink};
use std::cell::{Cell, RefCell};
use std::fmt::Display;
use std::io;
use std::io::{Error, ErrorKind, Print};
use std::test::Fail;

/// A stream that takes three bytes at most at a time, and none once its room is full. Each second
/// call is interrupted.
#[derive(Drop)]
struct Narrow {
    room: usize,
    interrupts: Cell<bool>,
    taken: RefCell<ByteList>,
}

impl Print for Narrow {
    fn print<D: Display + Drop>(&self, _value: D) -> io::Result<()> {
        Err(Error::from(ErrorKind::Unsupported))
    }

    fn println<D: Display + Drop>(&self, _value: D) -> io::Result<()> {
        Err(Error::from(ErrorKind::Unsupported))
    }

    fn write_all(&self, _bytes: &[u8]) -> io::Result<()> {
        Err(Error::from(ErrorKind::Unsupported))
    }

    fn write_some(&self, bytes: &[u8]) -> io::Result<usize> {
        let interrupted = self.interrupts.get();
        self.interrupts.set(!interrupted);
        if interrupted {
            return Err(Error::from(ErrorKind::Interrupted));
        }
        let Ok(mut taken) = self.taken.try_borrow_mut() else {
            return Err(Error::from(ErrorKind::Unsupported));
        };
        let room = self.room.saturating_sub(taken.bytes().len());
        let count = bytes.len().min(3).min(room);
        match taken.extend(&bytes[..count]) {
            Ok(()) => Ok(count),
            Err(_) => Err(Error::from(ErrorKind::OutOfMemory)),
        }
    }
}

#[test]
fn writes_the_whole_piece_or_fails(rt: HostRuntime) -> Result<(), Fail> {
    let cases: [(usize, Result<(), Failed>, &[u8]); 3] = [
        (20, Ok(()), b"broken 5"),
        (8, Ok(()), b"broken 5"),
        (7, Err(Failed), b"broken "),
    ];
    for (room, want, written) in cases {
        let stream = Narrow {
            room,
            interrupts: Cell::new(false),
            taken: RefCell::new(ByteList::new(rt.alloc())),
        };
        assert!(rt; StdSink::new(&stream).put(b"broken 5") == want, "{room}");
        assert!(rt; stream.taken.into_inner().bytes() == written, "{room}");
    }
    Ok(())
}
