//! Why a text is no schema.

ghost use Rattle.std.specs.Prelude.{◌≡◌};
ghost use Rattle.schema_text.specs.declared.errors.SchemaError.TheVariants.{Memory};

use page_source::NoMemory;
use thiserror::Error;

/// Why a line of a schema text is refused.
#[derive(Clone, Copy, Debug, PartialEq, Eq)]
pub enum SchemaWhy {
    /// The text has more than 65,536 bytes.
    Size,
    /// The text ends within a line, or before the clustered line.
    End,
    /// The words are not those of a line that may stand here.
    Form,
    /// A name has no character, more than 64, or one that isn't among `A-Z a-z 0-9 _ $`.
    Name,
    /// A number is spelled otherwise, or out of its range.
    Number,
    /// The 65th column, the 16th index line, or the 17th column of an index.
    Count,
    /// A name that an earlier line of the kind has, or a column twice in an index.
    Twice,
    /// A column of an index that wasn't declared.
    Unknown,
    /// Columns that make no key.
    Key,
    /// A root that an earlier index has.
    Root,
}

/// What reading a schema text fails with.
#[derive(Clone, Copy, Debug, PartialEq, Eq, Error)]
pub enum SchemaError {
    /// The first line, counted from 1, that is refused, and the first reason in the order of `SchemaWhy`.
    #[error("line {line} of the schema is refused: {why:?}")]
    Refused { line: u32, why: SchemaWhy },
    /// Memory ran out.
    #[error("out of memory")]
    Memory,
}

impl From<NoMemory> for SchemaError {
    ghost from_gives = { λ _ error. error ≡ Memory };

    fn from(_: NoMemory) -> Self {
        SchemaError::Memory
    }
}
