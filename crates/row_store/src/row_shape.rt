//! What the records of a clustered index have.

ghost use Rattle.std.specs.Prelude.{◌≡◌, IfOk};
ghost use Rattle.schema_text.specs.IndexFields.{other_positions};
ghost use Rattle.row_store.specs.calls.NextRow.{IsShapeOf};

use column_values::FieldList;
use page_source::NoMemory;
use schema_text::{Schema, is_among};
use std::alloc::Global;

/// The fields of the records, and the columns that stand behind the key.
#[derive(Drop)]
pub(crate) struct RowShape {
    /// The fields, those of the key first.
    pub(crate) fields: FieldList,
    /// The places of the columns that aren't in the key.
    pub(crate) others: Vec<u16>,
}

/// The places of the columns that aren't in the clustered key.
fn other_places(alloc: Global, schema: &Schema) -> Result<Vec<u16>, NoMemory>
    ensures { IfOk result (λ places. places.items ≡ other_positions schema.now) }
{
    let key = schema.indexes()[0].columns.items();
    let count = schema.columns().len() as u16;
    let mut places = Vec::new(alloc);
    for place in 0..count {
        if !is_among(key, usize::from(place)) {
            places.push(place)?;
        }
    }
    Ok(places)
}

impl RowShape {
    ghost use Rattle.row_store.specs.calls.NextRow.{IsShapeOf};

    /// What the records of the rows of a table have.
    pub(crate) fn of(alloc: Global, schema: &Schema) -> Result<RowShape, NoMemory>
        ensures { IfOk result (IsShapeOf schema.now) }
    {
        let _ = schema.indexes();
        Ok(RowShape {
            fields: schema.fields(alloc, 0, true)?,
            others: other_places(alloc, schema)?,
        })
    }
}
