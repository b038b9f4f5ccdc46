//! What a build answers.

ghost use Rattle.std.specs.Prelude.{◌≡◌};
ghost use Rattle.space_builder.specs.calls.Stops.{stop_of_rows, stop_of_put, stop_of_plan};

use crate::plan::PlanStop;
use page_source::{Failed, NoMemory};
use row_store::{RowsStop, RowsWhy};
use thiserror::Error;

/// A tablespace that was built.
#[derive(Clone, Copy, Debug, PartialEq, Eq)]
pub struct Built {
    /// The size of the tablespace in pages.
    pub pages: u32,
    /// How many rows the tablespace has.
    pub rows: u64,
}

/// What ends a build before it is done.
#[derive(Clone, Copy, Debug, PartialEq, Eq, Error)]
pub enum BuildStop {
    /// The roots in the schema's order aren't 3, 4, 5 and so on. Names the line of the first that differs.
    #[error("the root on line {line} isn't the next page")]
    RootPlace { line: u32 },
    /// A line of the rows is refused.
    #[error("line {line} is refused")]
    RowsRefused { line: u32, why: RowsWhy },
    /// The rows need more than 256 extents.
    #[error("the rows need more than 256 extents")]
    Full,
    /// The rows can't be read.
    #[error("the rows can't be read")]
    Source,
    /// The tablespace can't be written.
    #[error("the tablespace can't be written")]
    Store,
    /// Memory ran out.
    #[error("out of memory")]
    Memory,
}

impl From<NoMemory> for BuildStop {
    ghost use Rattle.space_builder.specs.declared.built.BuildStop.{BuildStop};

    ghost from_gives = { λ _ stop. stop ≡ BuildStop.Memory };

    fn from(_: NoMemory) -> Self {
        BuildStop::Memory
    }
}

impl From<RowsStop> for BuildStop {
    ghost from_gives = { λ rows stop. stop ≡ stop_of_rows rows };

    fn from(stop: RowsStop) -> Self {
        match stop {
            RowsStop::Refused { line, why } => BuildStop::RowsRefused { line, why },
            RowsStop::Source => BuildStop::Source,
            RowsStop::Memory => BuildStop::Memory,
        }
    }
}

/// What ends the putting of pages before all are put.
#[derive(Clone, Copy, Debug, PartialEq, Eq, Error)]
pub(crate) enum PutStop {
    /// A page can't be written.
    #[error("the tablespace can't be written")]
    Store,
    /// Memory ran out.
    #[error("out of memory")]
    Memory,
}

impl From<Failed> for PutStop {
    ghost use Rattle.space_builder.specs.declared.built.PutStop.{PutStop};

    ghost from_gives = { λ _ stop. stop ≡ PutStop.Store };

    fn from(_: Failed) -> Self {
        PutStop::Store
    }
}

impl From<NoMemory> for PutStop {
    ghost use Rattle.space_builder.specs.declared.built.PutStop.{PutStop};

    ghost from_gives = { λ _ stop. stop ≡ PutStop.Memory };

    fn from(_: NoMemory) -> Self {
        PutStop::Memory
    }
}

impl From<PutStop> for BuildStop {
    ghost from_gives = { λ put stop. stop ≡ stop_of_put put };

    fn from(stop: PutStop) -> Self {
        match stop {
            PutStop::Store => BuildStop::Store,
            PutStop::Memory => BuildStop::Memory,
        }
    }
}

impl From<PlanStop> for BuildStop {
    ghost from_gives = { λ plan stop. stop ≡ stop_of_plan plan };

    fn from(stop: PlanStop) -> Self {
        match stop {
            PlanStop::Full => BuildStop::Full,
            PlanStop::Memory => BuildStop::Memory,
        }
    }
}
