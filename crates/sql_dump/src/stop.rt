//! What ends a dump before it is done.

ghost use Rattle.std.specs.Prelude.{◌≡◌};
ghost use Rattle.sql_dump.specs.Stops.{write_stop_of, dump_stop_of, dump_stop_of_checks};

use page_source::{Failed, Fault, Halt, NoMemory, Stop};
use thiserror::Error;

/// What ends a dump before it is done.
#[derive(Clone, Copy, Debug, PartialEq, Eq, Error)]
pub enum DumpStop {
    /// A rule is broken. Over a file that tells its bytes nothing was written. A file that changes between the
    /// checks and the reading of the rows may be found out after lines were written.
    #[error("rule {} is broken at page {}", .0.rule.name(), .0.page)]
    Broken(Fault),
    /// The file can't be read.
    #[error("the file can't be read")]
    Source,
    /// The output takes no more.
    #[error("the output takes no more")]
    Sink,
    /// Memory ran out, before the first line.
    #[error("out of memory")]
    Memory,
}

/// What ends the writing of the rows, which takes no memory.
#[derive(Clone, Copy, Debug, PartialEq, Eq, Error)]
pub enum WriteStop {
    #[error("rule {} is broken at page {}", .0.rule.name(), .0.page)]
    Broken(Fault),
    #[error("the file can't be read")]
    Source,
    #[error("the output takes no more")]
    Sink,
}

impl From<Halt> for WriteStop {
    ghost from_gives = { λ halt stop. stop ≡ write_stop_of halt };

    fn from(halt: Halt) -> Self {
        match halt {
            Halt::Broken(fault) => WriteStop::Broken(fault),
            Halt::Source => WriteStop::Source,
        }
    }
}

impl From<Failed> for WriteStop {
    ghost use Rattle.sql_dump.specs.declared.stop.WriteStop.{WriteStop};

    ghost from_gives = { λ _ stop. stop ≡ WriteStop.Sink };

    fn from(_: Failed) -> Self {
        WriteStop::Sink
    }
}

impl From<WriteStop> for DumpStop {
    ghost from_gives = { λ end stop. stop ≡ dump_stop_of end };

    fn from(end: WriteStop) -> Self {
        match end {
            WriteStop::Broken(fault) => DumpStop::Broken(fault),
            WriteStop::Source => DumpStop::Source,
            WriteStop::Sink => DumpStop::Sink,
        }
    }
}

impl From<Stop> for DumpStop {
    ghost from_gives = { λ end stop. stop ≡ dump_stop_of_checks end };

    fn from(end: Stop) -> Self {
        match end {
            Stop::Broken(fault) => DumpStop::Broken(fault),
            Stop::Source => DumpStop::Source,
            Stop::Memory => DumpStop::Memory,
        }
    }
}

impl From<NoMemory> for DumpStop {
    ghost use Rattle.sql_dump.specs.declared.stop.DumpStop.{DumpStop};

    ghost from_gives = { λ _ stop. stop ≡ DumpStop.Memory };

    fn from(_: NoMemory) -> Self {
        DumpStop::Memory
    }
}
