//! A table as far as its lines were read.

ghost use Rattle.std.specs.Prelude.{◌≡◌, ◌+◌, ◌<◌, ◌≤◌, ◌∷◌, ◌++◌, [], length, OnOk, OnErr, IfOk};
ghost use Rattle.schema_text.specs.declared.table.Column.{Column};
ghost use Rattle.schema_text.specs.declared.table.IndexDef.{IndexDef};
ghost use Rattle.schema_text.specs.TableDef.{with_column, with_index};
ghost use Rattle.schema_text.specs.Parts.{IsPart, IsNextColumn, IsNextIndex};
ghost use Rattle.schema_text.specs.Grammar.{IsName, IsTable};

use crate::table::{Column, Format, IndexDef, Schema};
use page_source::{ByteList, NoMemory};
use std::alloc::Global;
use std::marker::Model;

/// A table as far as its lines were read.
#[derive(Drop)]
pub(crate) struct Part {
    table: ByteList,
    format: Format,
    columns: Vec<Column>,
    indexes: Vec<IndexDef>,
}

impl Model for Part {
    ghost use Rattle.schema_text.specs.TableDef.{TableDef};
    ghost use Rattle.schema_text.specs.Parts.{IsPart};

    ghost Value = { TableDef };

    ghost view = { λ s.
        record { table = s.table; format = s.format; columns = s.columns.items; indexes = s.indexes.items } };

    ghost invariant = { λ s. IsPart
        (record { table = s.table; format = s.format; columns = s.columns.items; indexes = s.indexes.items }) };
}

impl Part {
    /// A table without a column.
    pub(crate) fn new(alloc: Global, table: ByteList, format: Format) -> Part
        requires { IsName table }
        ensures { result ≡ record { table = table; format = format; columns = []; indexes = [] } }
    {
        Part {
            table,
            format,
            columns: Vec::new(alloc),
            indexes: Vec::new(alloc),
        }
    }

    pub(crate) fn format(&self) -> Format
        ensures { result ≡ self.now.format }
    {
        self.format
    }

    pub(crate) fn columns(&self) -> &[Column]
        ensures same { result.now ≡ self.now.columns }
        ensures few { length result.now ≤ 64 }
        ensures part { IsPart self.now }
    {
        &self.columns
    }

    pub(crate) fn indexes(&self) -> &[IndexDef]
        ensures same { result.now ≡ self.now.indexes }
        ensures few { length result.now ≤ 16 }
        ensures part { IsPart self.now }
    {
        &self.indexes
    }

    pub(crate) fn add_column(&mut self, column: Column) -> Result<(), NoMemory>
        requires { IsNextColumn self.old column }
        ensures ok { OnOk result (self.new ≡ with_column self.old column) }
    {
        self.columns.push(column)?;
        Ok(())
    }

    pub(crate) fn add_index(&mut self, index: IndexDef) -> Result<(), NoMemory>
        requires { IsNextIndex self.old index }
        ensures ok { OnOk result (self.new ≡ with_index self.old index) }
    {
        self.indexes.push(index)?;
        Ok(())
    }

    /// The schema that the lines make.
    pub(crate) fn finish(self) -> Schema
        requires { IsTable self }
        ensures { result ≡ self }
    {
        Schema::new(self.table, self.format, self.columns, self.indexes)
    }
}
