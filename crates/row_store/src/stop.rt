//! What ends the reading of rows.

ghost use Rattle.std.specs.Prelude.{◌≡◌};
ghost use Rattle.row_store.specs.calls.Stops.{stop_of_read, stop_of_row};

use page_source::{Failed, NoMemory};
use row_text::RowError;
use std::alloc::AllocError;
use thiserror::Error;

/// Why a line of rows is refused; the first of these that holds.
#[derive(Clone, Copy, Debug, PartialEq, Eq)]
pub enum RowsWhy {
    /// The line has more than 16,777,216 bytes, its LF counted.
    Long,
    /// The line holds byte 4,294,967,297 of the text.
    Input,
    /// The line is that of no row of the table, or it is the last one and has no LF.
    Line,
    /// The clustered key of the line isn't greater than that of the line before.
    Order,
    /// The record of the line is too long, and no column may go off the page.
    Big,
}

/// What ends the reading of rows before the end of their text.
#[derive(Clone, Copy, Debug, PartialEq, Eq, Error)]
pub enum RowsStop {
    /// A line of the rows is refused.
    #[error("line {line} is refused")]
    Refused { line: u32, why: RowsWhy },
    /// The text can't be read.
    #[error("the text can't be read")]
    Source,
    /// Memory ran out.
    #[error("out of memory")]
    Memory,
}

impl From<NoMemory> for RowsStop {
    ghost use Rattle.row_store.specs.declared.stop.RowsStop.{RowsStop};

    ghost from_gives = { λ _ stop. stop ≡ RowsStop.Memory };

    fn from(_: NoMemory) -> Self {
        RowsStop::Memory
    }
}

/// What ends the reading of a text.
#[derive(Clone, Copy, Debug, PartialEq, Eq, Error)]
pub(crate) enum ReadStop {
    /// The text can't be read.
    #[error("the text can't be read")]
    Source,
    /// Memory ran out.
    #[error("out of memory")]
    Memory,
}

impl From<Failed> for ReadStop {
    ghost use Rattle.row_store.specs.declared.stop.ReadStop.{ReadStop};

    ghost from_gives = { λ _ stop. stop ≡ ReadStop.Source };

    fn from(_: Failed) -> Self {
        ReadStop::Source
    }
}

impl From<AllocError> for ReadStop {
    ghost use Rattle.row_store.specs.declared.stop.ReadStop.{ReadStop};

    ghost from_gives = { λ _ stop. stop ≡ ReadStop.Memory };

    fn from(_: AllocError) -> Self {
        ReadStop::Memory
    }
}

impl From<ReadStop> for RowsStop {
    ghost from_gives = { λ read stop. stop ≡ stop_of_read read };

    fn from(stop: ReadStop) -> Self {
        match stop {
            ReadStop::Source => RowsStop::Source,
            ReadStop::Memory => RowsStop::Memory,
        }
    }
}

/// What ends the adding of a row.
#[derive(Clone, Copy, Debug, PartialEq, Eq, Error)]
pub(crate) enum RowStop {
    /// The line of the row is refused.
    #[error("the line is refused")]
    Refused(RowsWhy),
    /// Memory ran out.
    #[error("out of memory")]
    Memory,
}

impl From<RowError> for RowStop {
    ghost from_gives = { λ error stop. stop ≡ stop_of_row error };

    fn from(error: RowError) -> Self {
        match error {
            RowError::Refused => RowStop::Refused(RowsWhy::Line),
            RowError::Memory => RowStop::Memory,
        }
    }
}

impl From<NoMemory> for RowStop {
    ghost use Rattle.row_store.specs.declared.stop.RowStop.{RowStop};

    ghost from_gives = { λ _ stop. stop ≡ RowStop.Memory };

    fn from(_: NoMemory) -> Self {
        RowStop::Memory
    }
}
