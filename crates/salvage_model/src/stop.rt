//! What ends a salvage before it is done.

ghost use Rattle.std.specs.Prelude.{◌≡◌};
ghost use Rattle.salvage_model.specs.Stops.{salvage_stop_of};

use page_source::{Fault, NoMemory};
use sql_dump::WriteStop;
use thiserror::Error;

/// What ends a salvage before it is done.
#[derive(Clone, Copy, Debug, PartialEq, Eq, Error)]
pub enum SalvageStop {
    /// No index id was given, and the page of the root tells none.
    #[error("the root is lost")]
    Root,
    /// The number of pages, the root's page, or a part that was read before couldn't be read.
    #[error("the file can't be read")]
    Source,
    /// The output takes no more.
    #[error("the output takes no more")]
    Sink,
    /// The output for what is lost takes no more.
    #[error("the report takes no more")]
    Losses,
    /// Memory ran out, before the first byte.
    #[error("out of memory")]
    Memory,
    /// A page isn't any more what it was when it was checked. Over a file that tells its bytes this never comes.
    #[error("page {} changed", .0.page)]
    Changed(Fault),
}

impl From<NoMemory> for SalvageStop {
    ghost use Rattle.salvage_model.specs.declared.stop.SalvageStop.{SalvageStop};

    ghost from_gives = { λ _ stop. stop ≡ SalvageStop.Memory };

    fn from(_: NoMemory) -> Self {
        SalvageStop::Memory
    }
}

impl From<WriteStop> for SalvageStop {
    ghost from_gives = { λ end stop. stop ≡ salvage_stop_of end };

    fn from(end: WriteStop) -> Self {
        match end {
            WriteStop::Broken(fault) => SalvageStop::Changed(fault),
            WriteStop::Source => SalvageStop::Source,
            WriteStop::Sink => SalvageStop::Sink,
        }
    }
}
