//! What is said of a line that was tried.

use case_files::error::LineError;
use case_files::text::encode;
use page_source::ByteList;
use std::alloc::Global;

/// The most answers of a line that are shown.
const MOST_SHOWN: u64 = 10;

/// The most bytes of an answer that are shown.
const MOST_BYTES: usize = 2000;

/// How many tries of a line there were, how many of them came out otherwise, and what came.
#[derive(Drop)]
pub struct Report {
    tried: u64,
    failed: u64,
    came: ByteList,
}

impl Report {
    /// Nothing was tried yet.
    pub fn new(alloc: Global) -> Report {
        Report {
            tried: 0,
            failed: 0,
            came: ByteList::new(alloc),
        }
    }

    /// How many tries came out as wanted.
    pub fn passed(&self) -> u64 {
        self.tried.saturating_sub(self.failed)
    }

    /// How many tries came out otherwise.
    pub fn failed(&self) -> u64 {
        self.failed
    }

    /// What came of the tries that came out otherwise, a line for each.
    pub fn came(&self) -> &[u8] {
        self.came.bytes()
    }

    /// Counts a try, and keeps what came where it isn't what is wanted. `which` says which of the line's tries it is.
    pub fn compare(&mut self, which: &[u8], wanted: &[u8], came: &[u8]) -> Result<(), LineError> {
        self.tried = self.tried.saturating_add(1);
        if wanted == came {
            return Ok(());
        }
        self.failed = self.failed.saturating_add(1);
        if self.failed > MOST_SHOWN {
            return Ok(());
        }
        self.came.extend(b"    came")?;
        self.came.extend(which)?;
        self.came.extend(b": ")?;
        let (shown, _) = came.split_at(came.len().min(MOST_BYTES));
        encode(&mut self.came, shown)?;
        self.came.extend(b"\n")?;
        Ok(())
    }
}
