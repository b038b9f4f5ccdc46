//! Why a record isn't read.

use page_source::NoMemory;
use thiserror::Error;

/// Why a record wasn't read.
#[derive(Clone, Copy, Debug, PartialEq, Eq, Error)]
pub enum LocateError {
    /// The record's null bits or lengths aren't spelled as they must be, or it begins before the heap does, at byte
    /// 120.
    #[error("the record isn't spelled as it must be")]
    BadRecord,
    /// Memory ran out.
    #[error("out of memory")]
    Memory,
}

impl From<NoMemory> for LocateError {
    ghost use Rattle.std.specs.Prelude.{◌≡◌};
    ghost use Rattle.compact_record.specs.declared.errors.LocateError.TheVariants.{Memory};

    ghost from_gives = { λ _ e. e ≡ Memory };

    fn from(_: NoMemory) -> Self {
        LocateError::Memory
    }
}
