//! What a comparison answers.

ghost use Rattle.std.specs.Prelude.{◌≡◌};
ghost use Rattle.cross_index.specs.Stops.{cross_stop_of, cross_stop_of_checks};

use page_source::{Fault, Halt, NoMemory, Stop};
use thiserror::Error;

/// How many secondary indexes there are, and how many entries they have.
#[derive(Clone, Copy, Debug, PartialEq, Eq)]
pub struct Crossed {
    pub indexes: u32,
    pub entries: u64,
}

/// Why a comparison of indexes and rows has no numbers.
#[derive(Clone, Copy, Debug, PartialEq, Eq, Error)]
pub enum CrossStop {
    /// The first broken rule.
    #[error("rule {} is broken at page {}", .0.rule.name(), .0.page)]
    Broken(Fault),
    /// An index has no entry for a row, counted from 1.
    #[error("index {index} has no entry for row {row}")]
    Missing { index: u32, row: u64 },
    /// A leaf page of an index has an entry that is of no row.
    #[error("index {index} has an entry on page {page} that is of no row")]
    Extra { index: u32, page: u32 },
    /// The file can't be read.
    #[error("the file can't be read")]
    Source,
    /// Memory ran out.
    #[error("out of memory")]
    Memory,
}

impl From<Halt> for CrossStop {
    ghost from_gives = { λ halt stop. stop ≡ cross_stop_of halt };

    fn from(halt: Halt) -> Self {
        match halt {
            Halt::Broken(fault) => CrossStop::Broken(fault),
            Halt::Source => CrossStop::Source,
        }
    }
}

impl From<Stop> for CrossStop {
    ghost from_gives = { λ end stop. stop ≡ cross_stop_of_checks end };

    fn from(end: Stop) -> Self {
        match end {
            Stop::Broken(fault) => CrossStop::Broken(fault),
            Stop::Source => CrossStop::Source,
            Stop::Memory => CrossStop::Memory,
        }
    }
}

impl From<NoMemory> for CrossStop {
    ghost use Rattle.cross_index.specs.declared.crossed.CrossStop.{CrossStop};

    ghost from_gives = { λ _ stop. stop ≡ CrossStop.Memory };

    fn from(_: NoMemory) -> Self {
        CrossStop::Memory
    }
}
