//! Why a line is no case.

use page_source::NoMemory;
use std::alloc::{AllocError, AllocFailed};
use thiserror::Error;

/// Why a line can't be read.
#[derive(Clone, Copy, Debug, PartialEq, Eq, Error)]
pub enum LineError {
    /// No ` -> ` divides what is done from the answer.
    #[error("no answer")]
    NoAnswer,
    #[error("no such command")]
    Command,
    /// A word is missing, or is one that may not stand there.
    #[error("a word is missing, or stands where it may not")]
    Word,
    #[error("no number")]
    Number,
    #[error("no bytes in hexadecimal digits")]
    Bytes,
    #[error("a wrong escape")]
    Escape,
    /// No file line above names the file, or no schema line the schema.
    #[error("no such file or schema")]
    Name,
    /// The bytes don't fit on the page, or a page has no descriptors of these extents.
    #[error("a place outside the page")]
    Place,
    #[error("out of memory")]
    Memory,
}

impl From<NoMemory> for LineError {
    fn from(_: NoMemory) -> Self {
        LineError::Memory
    }
}

impl From<AllocError> for LineError {
    fn from(_: AllocError) -> Self {
        LineError::Memory
    }
}

impl<T: Drop> From<AllocFailed<T>> for LineError {
    fn from(_: AllocFailed<T>) -> Self {
        LineError::Memory
    }
}
