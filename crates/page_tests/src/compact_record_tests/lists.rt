//! The fields of some indexes.

ghost use Rattle.std.specs.Prelude.{◌≡◌, [], ◌∷◌, length, IfOk};
ghost use Rattle.compact_record.specs.Reading.{key_kinds};
ghost use Rattle.compact_record.specs.Keys.{HaveChild};

use column_values::{ColumnType, Field, FieldList, FieldType};
use page_source::NoMemory;
use std::alloc::Global;

/// An index, by its columns: `id int` is the key of each table.
#[derive(Clone, Copy)]
pub enum Shape {
    /// Rows with a `varchar 300`.
    Wide,
    /// Rows with a `varchar 20` and a `text` that may be null.
    Notes,
}

impl Shape {
    pub fn fields(self, alloc: Global) -> Result<FieldList, NoMemory> {
        match self {
            Shape::Wide => wide(alloc),
            Shape::Notes => notes(alloc),
        }
    }
}

const ID: Field = Field {
    kind: FieldType::Column(ColumnType::Int {
        width: 4,
        signed: true,
    }),
    nullable: false,
    may_leave: false,
};

const TRX_ID: Field = Field {
    kind: FieldType::TrxId,
    nullable: false,
    may_leave: false,
};

const ROLL_POINTER: Field = Field {
    kind: FieldType::RollPointer,
    nullable: false,
    may_leave: false,
};

const CHILD: Field = Field {
    kind: FieldType::Child,
    nullable: false,
    may_leave: false,
};

const TAG: Field = Field {
    kind: FieldType::Column(ColumnType::Varchar { n: 20 }),
    nullable: true,
    may_leave: false,
};

const NOTE: Field = Field {
    kind: FieldType::Column(ColumnType::Text { n: 65535 }),
    nullable: true,
    may_leave: true,
};

fn wide(alloc: Global) -> Result<FieldList, NoMemory> {
    let mut fields = FieldList::new(alloc, 0, 1);
    fields.push(ID)?;
    fields.push(TRX_ID)?;
    fields.push(ROLL_POINTER)?;
    fields.push(Field {
        kind: FieldType::Column(ColumnType::Varchar { n: 300 }),
        nullable: false,
        may_leave: true,
    })?;
    Ok(fields)
}

fn notes(alloc: Global) -> Result<FieldList, NoMemory> {
    let mut fields = FieldList::new(alloc, 2, 1);
    fields.push(ID)?;
    fields.push(TRX_ID)?;
    fields.push(ROLL_POINTER)?;
    fields.push(TAG)?;
    fields.push(NOTE)?;
    Ok(fields)
}

/// Rows of the table without other columns.
pub fn id_leaf(alloc: Global) -> Result<FieldList, NoMemory>
    ensures keys { IfOk result (λ fields. key_kinds fields ≡ ID.kind ∷ []) }
    ensures count { IfOk result (λ fields. length fields.fields ≡ 3) }
    ensures few { IfOk result (λ fields. fields.keys ≡ 1) }
{
    let mut fields = FieldList::new(alloc, 0, 1);
    fields.push(ID)?;
    fields.push(TRX_ID)?;
    fields.push(ROLL_POINTER)?;
    Ok(fields)
}

/// Node pointers to them.
pub fn id_node(alloc: Global) -> Result<FieldList, NoMemory>
    ensures keys { IfOk result (λ fields. key_kinds fields ≡ ID.kind ∷ []) }
    ensures count { IfOk result (λ fields. length fields.fields ≡ 2) }
    ensures few { IfOk result (λ fields. fields.keys ≡ 1) }
    ensures child { IfOk result (λ fields. HaveChild fields) }
{
    let mut fields = FieldList::new(alloc, 0, 1);
    fields.push(ID)?;
    fields.push(CHILD)?;
    Ok(fields)
}
