//! A file whose reads are interrupted.

use page_source::{ByteSource, Failed, FileBytes};
use std::alloc::Allocator;
use std::fs::{Files, Metadata, OpenFile, OpenOptions};
use std::io;
use std::io::{Error, ErrorKind, Read, Seek, SeekFrom, Write};

/// A file whose first calls are interrupted, and which then gives three bytes, or fails.
#[derive(Drop)]
struct Interrupted {
    calls: u8,
    fails: bool,
}

impl Read for Interrupted {
    fn read(&mut self, buffer: &mut [u8]) -> io::Result<usize> {
        if self.calls > 0 {
            self.calls -= 1;
            return Err(Error::from(ErrorKind::Interrupted));
        }
        if self.fails {
            return Err(Error::from(ErrorKind::Unsupported));
        }
        Ok(buffer.len().min(3))
    }
}

impl Write for Interrupted {
    fn write(&mut self, _bytes: &[u8]) -> io::Result<usize> {
        Err(Error::from(ErrorKind::Unsupported))
    }

    fn flush(&mut self) -> io::Result<()> {
        Err(Error::from(ErrorKind::Unsupported))
    }
}

impl Seek for Interrupted {
    fn seek(&mut self, _to: SeekFrom) -> io::Result<u64> {
        Err(Error::from(ErrorKind::Unsupported))
    }
}

impl OpenFile for Interrupted {
    fn metadata(&self) -> io::Result<Metadata> {
        Err(Error::from(ErrorKind::Unsupported))
    }

    fn set_len(&self, _size: u64) -> io::Result<()> {
        Err(Error::from(ErrorKind::Unsupported))
    }

    fn sync_all(&self) -> io::Result<()> {
        Err(Error::from(ErrorKind::Unsupported))
    }

    fn sync_data(&self) -> io::Result<()> {
        Err(Error::from(ErrorKind::Unsupported))
    }
}

/// A file system in which each path names such a file.
#[derive(Drop)]
struct OneFile {
    calls: u8,
    fails: bool,
}

impl Files for OneFile {
    type File = Interrupted;

    type Dir = Interrupted;

    fn open_file(&self, _how: &OpenOptions, _path: &str) -> io::Result<Interrupted> {
        Ok(Interrupted {
            calls: self.calls,
            fails: self.fails,
        })
    }

    fn open_dir(&self, _path: &str) -> io::Result<Interrupted> {
        Err(Error::from(ErrorKind::Unsupported))
    }

    fn metadata(&self, _path: &str) -> io::Result<Metadata> {
        Err(Error::from(ErrorKind::Unsupported))
    }

    fn symlink_metadata(&self, _path: &str) -> io::Result<Metadata> {
        Err(Error::from(ErrorKind::Unsupported))
    }

    fn copy(&self, _from: &str, _to: &str) -> io::Result<u64> {
        Err(Error::from(ErrorKind::Unsupported))
    }

    fn rename(&self, _from: &str, _to: &str) -> io::Result<()> {
        Err(Error::from(ErrorKind::Unsupported))
    }

    fn remove_file(&self, _path: &str) -> io::Result<()> {
        Err(Error::from(ErrorKind::Unsupported))
    }

    fn create_dir(&self, _path: &str) -> io::Result<()> {
        Err(Error::from(ErrorKind::Unsupported))
    }

    fn remove_dir(&self, _path: &str) -> io::Result<()> {
        Err(Error::from(ErrorKind::Unsupported))
    }

    fn remove_dir_all<B: Allocator>(&self, _alloc: B, _path: &str) -> io::Result<()> {
        Err(Error::from(ErrorKind::Unsupported))
    }
}

#[test]
fn an_interrupted_read_is_tried_again(rt: HostRuntime) {
    for calls in 0..3u8 {
        for (fails, wanted) in [(false, Ok(3)), (true, Err(Failed))] {
            let files = OneFile { calls, fails };
            let mut bytes = FileBytes::new(&files, Some(b"schema"));
            let found = bytes.read(&mut [0; 5]);
            assert!(rt; found == wanted, "{calls} calls are interrupted");
        }
    }
}
