//! The fields of an index.

ghost use Rattle.std.specs.Prelude.{◌≡◌, ◌<◌, ◌≤◌, [], length, map, All, OnOk, OnErr};
ghost use Rattle.column_values.specs.Types.{CanFollow, with_field, storage_of, IsShort};

use crate::kind::ColumnType;
use page_source::NoMemory;
use std::alloc::Global;
use std::marker::Model;

/// What a field of a record holds (rem0rec, data0type).
#[derive(Clone, Copy, Debug, PartialEq, Eq)]
pub enum FieldType {
    /// A column of the table.
    Column(ColumnType),
    /// The hidden row id, 6 bytes.
    RowId,
    /// The transaction that wrote the record last, 6 bytes.
    TrxId,
    /// Where the undo log has the version before, 7 bytes.
    RollPointer,
    /// The page that a node pointer leads to, 4 bytes.
    Child,
}

/// A field of an index's records (dict0mem).
#[derive(Clone, Copy, Debug, PartialEq, Eq)]
pub struct Field {
    /// What the field holds.
    pub kind: FieldType,
    /// Whether the field may be null, so that each record has a null bit for it.
    pub nullable: bool,
    /// Whether a part of the field's value may stand on pages of its own, as only big columns behind the key may
    /// (btr0cur).
    pub may_leave: bool,
}

/// How a record keeps a field (rem0rec): all that its bytes are found by.
#[derive(Clone, Copy, Debug, PartialEq, Eq)]
pub struct Storage {
    /// Whether each record has a null bit for the field.
    pub nullable: bool,
    /// Whether a record keeps the length of the field.
    pub variable: bool,
    /// Whether the length of the field may take two bytes.
    pub big: bool,
    /// Whether a part of the field's value may stand on pages of its own.
    pub may_leave: bool,
    /// The length of the field, if it isn't variable.
    pub length: usize,
}

/// How a record keeps a field of this kind.
fn storage_of(field: Field) -> Storage
    ensures value { result ≡ storage_of field }
    ensures within { result.length < 34359738368 }
{
    Storage {
        nullable: field.nullable,
        variable: field.kind.is_variable(),
        big: field.kind.is_big(),
        may_leave: field.may_leave,
        length: field.kind.fixed_length(),
    }
}

/// The fields of an index's records, in order, with how many nullable fields the whole index has, and how many
/// fields at the front make the key.
#[derive(Debug, Drop)]
pub struct FieldList {
    fields: Vec<Field>,
    /// How a record keeps each of the fields.
    stored: Vec<Storage>,
    nullable: u32,
    keys: u32,
}

impl Model for FieldList {
    ghost use Rattle.std.specs.Prelude.{◌≡◌, map, All};
    ghost use Rattle.column_values.specs.Types.{Fields, AreListed, storage_of, IsShort};

    ghost Value = { Fields };

    ghost view = { λ list. record { fields = list.fields.items; nullable = list.nullable; keys = list.keys } };

    ghost invariant = { λ list. AreListed
        (record { fields = list.fields.items; nullable = list.nullable; keys = list.keys })
        × (list.stored.items ≡ map storage_of list.fields.items) × All IsShort list.stored.items };
}

impl FieldList {
    /// No field yet, of an index with so many nullable fields and so many key fields.
    pub fn new(alloc: Global, nullable: u32, keys: u32) -> FieldList
        ensures { result ≡ record { fields = []; nullable = nullable; keys = keys } }
    {
        FieldList {
            fields: Vec::new(alloc),
            stored: Vec::new(alloc),
            nullable,
            keys,
        }
    }

    /// Adds a field at the end.
    pub fn push(&mut self, field: Field) -> Result<(), NoMemory>
        requires { CanFollow self.old field }
        ensures ok { OnOk result (self.new ≡ with_field self.old field) }
        ensures err { OnErr result (self.new ≡ self.old) }
    {
        self.stored.push(storage_of(field))?;
        if let Err(full) = self.fields.push(field) {
            self.stored.pop();
            return Err(full.into());
        }
        Ok(())
    }

    /// The fields, in order.
    pub fn fields(&self) -> &[Field]
        ensures same { result.now ≡ self.now.fields }
        ensures few { length result.now ≤ 128 }
    {
        &self.fields
    }

    /// How a record keeps each of the fields.
    pub fn stored(&self) -> &[Storage]
        ensures same { result.now ≡ map storage_of self.now.fields }
        ensures short { All IsShort result.now }
    {
        &self.stored
    }

    /// How many nullable fields the whole index has.
    pub fn nullable(&self) -> u32
        ensures { result ≡ self.now.nullable }
    {
        self.nullable
    }

    /// How many fields make the key.
    pub fn keys(&self) -> u32
        ensures { result ≡ self.now.keys }
    {
        self.keys
    }
}
