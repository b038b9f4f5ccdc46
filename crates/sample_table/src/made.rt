//! What a sample answers.

use page_source::NoMemory;
use table_check::Checked;
use thiserror::Error;

/// What the made table came to.
#[derive(Clone, Copy, Debug, PartialEq, Eq)]
pub struct Sample {
    /// The numbers of the made table's file.
    pub checked: Checked,
    /// How many bytes the dump of the file has.
    pub bytes: u64,
    /// The CRC-32C of the dump.
    pub sum: u32,
}

/// What ends a sample before it is done.
#[derive(Clone, Copy, Debug, PartialEq, Eq, Error)]
pub enum SampleStop {
    /// The rows need more than 256 extents.
    #[error("the rows need more than 256 extents")]
    Full,
    /// Memory ran out.
    #[error("out of memory")]
    Memory,
}

impl From<NoMemory> for SampleStop {
    ghost use Rattle.std.specs.Prelude.{◌≡◌};
    ghost use Rattle.sample_table.specs.declared.made.SampleStop.{SampleStop};

    ghost from_gives = { λ _ stop. stop ≡ SampleStop.Memory };

    fn from(_: NoMemory) -> Self {
        SampleStop::Memory
    }
}
