//! The values of a row, or of a key.

ghost use Rattle.std.specs.Prelude.{◌≡◌, [], ◌∷◌, ◌++◌, OnOk, OnErr};

use column_values::Value;
use page_source::NoMemory;
use std::alloc::Global;
use std::marker::Model;
use thiserror::Error;

/// The values of a row in table order, or those of a key in key order.
#[derive(Debug, Drop)]
pub struct Row {
    values: Vec<Value>,
}

impl Model for Row {
    ghost use Rattle.std.specs.Prelude.{List};
    ghost use Rattle.column_values.specs.declared.value.Value.{Value as ColumnValue};

    ghost Value = { List ColumnValue };

    ghost view = { λ row. row.values.items };
}

impl Row {
    /// A row of no values, which takes no memory yet.
    pub fn new(alloc: Global) -> Row
        ensures { result ≡ [] }
    {
        Row {
            values: Vec::new(alloc),
        }
    }

    /// Adds a value at the end.
    pub fn push(&mut self, value: Value) -> Result<(), NoMemory>
        ensures ok { OnOk result (self.new ≡ self.old ++ value ∷ []) }
        ensures err { OnErr result (self.new ≡ self.old) }
    {
        self.values.push(value)?;
        Ok(())
    }

    /// The values.
    pub fn values(&self) -> &[Value]
        ensures { result.now ≡ self.now }
    {
        &self.values
    }
}

/// Why there is no row, or no key.
#[derive(Clone, Copy, Debug, PartialEq, Eq, Error)]
pub enum RowError {
    /// No row has the line, or no key the text.
    #[error("no row of the table")]
    Refused,
    /// Memory ran out.
    #[error("out of memory")]
    Memory,
}

impl From<NoMemory> for RowError {
    ghost use Rattle.std.specs.Prelude.{◌≡◌};
    ghost use Rattle.row_text.specs.declared.row.RowError.{RowError};

    ghost from_gives = { λ _ error. error ≡ RowError.Memory };

    fn from(_: NoMemory) -> Self {
        RowError::Memory
    }
}
