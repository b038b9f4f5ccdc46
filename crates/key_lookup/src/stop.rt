//! What ends a look-up before its row is written.

ghost use Rattle.std.specs.Prelude.{◌≡◌};
ghost use Rattle.key_lookup.specs.Stops.{get_stop_of, get_stop_of_write, get_stop_of_row};

use page_source::{Fault, NoMemory, Stop};
use row_text::RowError;
use sql_dump::WriteStop;
use thiserror::Error;

/// What ends a look-up before its row is written.
#[derive(Clone, Copy, Debug, PartialEq, Eq, Error)]
pub enum GetStop {
    /// The text is that of no key.
    #[error("the text is that of no key")]
    Refused,
    /// No row has the key.
    #[error("no row has the key")]
    Absent,
    /// A rule is broken on the way to the row, or in it.
    #[error("rule {} is broken at page {}", .0.rule.name(), .0.page)]
    Broken(Fault),
    /// The file can't be read.
    #[error("the file can't be read")]
    Source,
    /// The output takes no more.
    #[error("the output takes no more")]
    Sink,
    /// Memory ran out.
    #[error("out of memory")]
    Memory,
}

impl From<Stop> for GetStop {
    ghost from_gives = { λ end stop. stop ≡ get_stop_of end };

    fn from(end: Stop) -> Self {
        match end {
            Stop::Broken(fault) => GetStop::Broken(fault),
            Stop::Source => GetStop::Source,
            Stop::Memory => GetStop::Memory,
        }
    }
}

impl From<WriteStop> for GetStop {
    ghost from_gives = { λ end stop. stop ≡ get_stop_of_write end };

    fn from(end: WriteStop) -> Self {
        match end {
            WriteStop::Broken(fault) => GetStop::Broken(fault),
            WriteStop::Source => GetStop::Source,
            WriteStop::Sink => GetStop::Sink,
        }
    }
}

impl From<NoMemory> for GetStop {
    ghost use Rattle.key_lookup.specs.declared.stop.GetStop.{GetStop};

    ghost from_gives = { λ _ stop. stop ≡ GetStop.Memory };

    fn from(_: NoMemory) -> Self {
        GetStop::Memory
    }
}

impl From<RowError> for GetStop {
    ghost from_gives = { λ error stop. stop ≡ get_stop_of_row error };

    fn from(error: RowError) -> Self {
        match error {
            RowError::Refused => GetStop::Refused,
            RowError::Memory => GetStop::Memory,
        }
    }
}
