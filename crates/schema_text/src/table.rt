//! The parts of a schema.

ghost use Rattle.std.specs.Prelude.{◌≡◌, List, ℕ};
ghost use Rattle.schema_text.specs.Formats.{flags_of};

use column_values::ColumnType;
use page_source::ByteList;
use std::marker::Model;

/// The format of a table's rows (ROW_FORMAT).
#[derive(Clone, Copy, Debug, PartialEq, Eq)]
pub enum Format {
    /// COMPACT: a column of a key has at most 767 bytes.
    Compact,
    /// DYNAMIC: only the columns of a key together have a limit, 3,072 bytes.
    Dynamic,
}

/// A column of a table.
#[derive(Debug, Drop)]
pub struct Column {
    /// The name of the column: one to 64 characters, each of one byte.
    pub name: ByteList,
    /// The type of the column's values.
    pub kind: ColumnType,
    /// Whether a row may hold no value of the column.
    pub nullable: bool,
}

/// Positions of columns, counted from 0 in the order of the table.
#[derive(Debug, Drop)]
pub struct ColumnList {
    positions: Vec<u16>,
}

impl Model for ColumnList {
    ghost Value = { List ℕ };

    ghost view = { λ list. list.positions.items };
}

impl ColumnList {
    pub(crate) fn new(positions: Vec<u16>) -> ColumnList
        ensures { result ≡ positions.items }
    {
        ColumnList { positions }
    }

    /// The positions, in the order of the index.
    pub fn items(&self) -> &[u16]
        ensures { result.now ≡ self.now }
    {
        &self.positions
    }
}

/// An index of a table.
#[derive(Debug, Drop)]
pub struct IndexDef {
    /// The name of the index, empty for the clustered one.
    pub name: ByteList,
    /// The number of the index's root page, from 3 on.
    pub root: u32,
    /// The columns that the index names, at most 16; none for a clustered index on the hidden row id.
    pub columns: ColumnList,
    /// The line of the schema text that declares the index, counted from 1.
    pub line: u32,
}

/// The schema of a table: its columns, and its indexes, the clustered one first.
#[derive(Debug, Drop)]
pub struct Schema {
    pub(crate) table: ByteList,
    format: Format,
    columns: Vec<Column>,
    indexes: Vec<IndexDef>,
}

impl Model for Schema {
    ghost use Rattle.schema_text.specs.TableDef.{TableDef};
    ghost use Rattle.schema_text.specs.Grammar.{IsTable};

    ghost Value = { TableDef };

    ghost view = { λ s.
        record { table = s.table; format = s.format; columns = s.columns.items; indexes = s.indexes.items } };

    ghost invariant = { λ s. IsTable
        (record { table = s.table; format = s.format; columns = s.columns.items; indexes = s.indexes.items }) };
}

impl Schema {
    ghost use Rattle.schema_text.specs.TableDef.{TableDef};
    ghost use Rattle.schema_text.specs.Grammar.{IsTable};

    pub(crate) fn new(
        table: ByteList,
        format: Format,
        columns: Vec<Column>,
        indexes: Vec<IndexDef>,
    ) -> Schema
        requires { IsTable
            (record { table = table; format = format; columns = columns.items; indexes = indexes.items }) }
        ensures { result ≡ record { table = table; format = format; columns = columns.items; indexes = indexes.items } }
    {
        Schema {
            table,
            format,
            columns,
            indexes,
        }
    }

    /// The name of the table.
    pub fn table(&self) -> &[u8]
        ensures { result.now ≡ self.now.table }
    {
        self.table.bytes()
    }

    /// The format of the table's rows.
    pub fn format(&self) -> Format
        ensures { result ≡ self.now.format }
    {
        self.format
    }

    /// The flags of a tablespace of this format (fsp0fsp), without the bit for DATA DIRECTORY.
    pub fn flags(&self) -> u32
        ensures { result ≡ flags_of self.now.format }
    {
        match self.format {
            Format::Compact => 0,
            Format::Dynamic => 33,
        }
    }

    /// The columns, in the order of a row.
    pub fn columns(&self) -> &[Column]
        ensures same { result.now ≡ self.now.columns }
        ensures table { IsTable self.now }
    {
        &self.columns
    }

    /// The indexes, the clustered one first.
    pub fn indexes(&self) -> &[IndexDef]
        ensures same { result.now ≡ self.now.indexes }
        ensures table { IsTable self.now }
    {
        &self.indexes
    }
}
