//! What a take answers.

ghost use Rattle.std.specs.Prelude.{◌≡◌};

use page_source::NoMemory;
use thiserror::Error;

/// How many pages were put, how many the file has, and the greatest LSN among them.
#[derive(Clone, Copy, Debug, PartialEq, Eq)]
pub struct Taken {
    pub pages: u32,
    pub size: u32,
    pub newest: u64,
}

/// What ends a take before it is done.
#[derive(Clone, Copy, Debug, PartialEq, Eq, Error)]
pub enum TakeStop {
    /// No page of the space is found in the image.
    #[error("no page of the space is found")]
    Nothing,
    /// The image can't be read.
    #[error("the image can't be read")]
    Source,
    /// The file takes no more.
    #[error("the file takes no more")]
    Store,
    /// Memory ran out.
    #[error("out of memory")]
    Memory,
}

impl From<NoMemory> for TakeStop {
    ghost use Rattle.image_carve.specs.declared.taken.TakeStop.{TakeStop};

    ghost from_gives = { λ _ stop. stop ≡ TakeStop.Memory };

    fn from(_: NoMemory) -> Self {
        TakeStop::Memory
    }
}
