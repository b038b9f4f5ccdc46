//! The text of a schema.

ghost use Rattle.std.specs.Prelude.{◌≡◌, ◌<◌, ◌∷◌, ◌++◌, [], length, codes, decimal, OnOk, IfOk, All, flat_map};
ghost use Rattle.schema_text.specs.declared.table.Column.{Column};
ghost use Rattle.schema_text.specs.declared.table.IndexDef.{IndexDef};
ghost use Rattle.column_values.specs.declared.kind.ColumnType.TheVariants.{Int, Utf8Varchar, Utf8Text, Decimal};
ghost use Rattle.schema_text.specs.Grammar.{space, line_of, int_word, long_prefix, type_words};
ghost use Rattle.schema_text.specs.Grammar.{column_words, table_words, schema_text};
ghost use Rattle.schema_text.specs.Printing.{spaced, names_at, clustered_by, index_by, HasKnownColumns};

use crate::table::{Column, Format, IndexDef, Schema};
use column_values::ColumnType;
use itoa::Buffer;
use page_source::{ByteList, NoMemory};
use std::alloc::Global;

/// Adds a space and a word.
fn push_word(text: &mut ByteList, word: &[u8]) -> Result<(), NoMemory>
    ensures { OnOk result (text.new ≡ text.old ++ space ∷ word.now) }
{
    text.push(b' ')?;
    text.extend(word)?;
    Ok(())
}

/// Adds a space and a number.
fn push_number(text: &mut ByteList, number: u32) -> Result<(), NoMemory>
    ensures { OnOk result (text.new ≡ text.old ++ space ∷ decimal number) }
{
    push_word(text, Buffer::new().format(number).as_bytes())
}

/// Adds a word and a number.
fn push_sized(text: &mut ByteList, word: &[u8], number: u32) -> Result<(), NoMemory>
    ensures { OnOk result (text.new ≡ text.old ++ spaced (word.now ∷ decimal number ∷ [])) }
{
    push_word(text, word)?;
    push_number(text, number)
}

/// The word for integers of this width.
fn int_word(width: u8) -> &'static [u8]
    ensures { result.now ≡ int_word width }
{
    match width {
        1 => b"tinyint",
        2 => b"smallint",
        3 => b"mediumint",
        4 => b"int",
        _ => b"bigint",
    }
}

/// The word for the text kind of this length.
fn text_word(n: u32) -> &'static [u8]
    ensures { result.now ≡ long_prefix n ++ codes "text" }
{
    match n {
        255 => b"tinytext",
        65535 => b"text",
        16777215 => b"mediumtext",
        _ => b"longtext",
    }
}

/// The word for the blob kind of this length.
fn blob_word(n: u32) -> &'static [u8]
    ensures { result.now ≡ long_prefix n ++ codes "blob" }
{
    match n {
        255 => b"tinyblob",
        65535 => b"blob",
        16777215 => b"mediumblob",
        _ => b"longblob",
    }
}

/// Adds the words of an integer type.
fn push_int(text: &mut ByteList, width: u8, signed: bool) -> Result<(), NoMemory>
    ensures { OnOk result (text.new ≡ text.old ++ spaced (type_words (Int width signed))) }
{
    push_word(text, int_word(width))?;
    if signed {
        return Ok(());
    }
    push_word(text, b"unsigned")
}

/// Adds the words of a text kind of utf8mb4.
fn push_utf8_text(text: &mut ByteList, n: u32) -> Result<(), NoMemory>
    ensures { OnOk result (text.new ≡ text.old ++ spaced (type_words (Utf8Text n))) }
{
    push_word(text, text_word(n))?;
    push_word(text, b"utf8mb4")
}

/// Adds the words of a `varchar` of utf8mb4.
fn push_utf8_varchar(text: &mut ByteList, n: u32) -> Result<(), NoMemory>
    ensures { OnOk result (text.new ≡ text.old ++ spaced (type_words (Utf8Varchar n))) }
{
    push_sized(text, b"varchar", n)?;
    push_word(text, b"utf8mb4")
}

/// Adds the words of a decimal.
fn push_decimal(text: &mut ByteList, p: u8, s: u8) -> Result<(), NoMemory>
    ensures { OnOk result (text.new ≡ text.old ++ spaced (type_words (Decimal p s))) }
{
    push_sized(text, b"decimal", u32::from(p))?;
    push_number(text, u32::from(s))
}

/// Adds the words of a type.
fn push_type(text: &mut ByteList, kind: ColumnType) -> Result<(), NoMemory>
    ensures { OnOk result (text.new ≡ text.old ++ spaced (type_words kind)) }
{
    match kind {
        ColumnType::Int { width, signed } => push_int(text, width, signed),
        ColumnType::Date => push_word(text, b"date"),
        ColumnType::Char { n } => push_sized(text, b"char", n),
        ColumnType::Varchar { n } => push_sized(text, b"varchar", n),
        ColumnType::Binary { n } => push_sized(text, b"binary", n),
        ColumnType::Varbinary { n } => push_sized(text, b"varbinary", n),
        ColumnType::Text { n } => push_word(text, text_word(n)),
        ColumnType::Blob { n } => push_word(text, blob_word(n)),
        ColumnType::Utf8Varchar { n } => push_utf8_varchar(text, n),
        ColumnType::Utf8Text { n } => push_utf8_text(text, n),
        ColumnType::DateTime { f } => push_sized(text, b"datetime", u32::from(f)),
        ColumnType::Timestamp { f } => push_sized(text, b"timestamp", u32::from(f)),
        ColumnType::Year => push_word(text, b"year"),
        ColumnType::Decimal { p, s } => push_decimal(text, p, s),
    }
}

/// Adds the names of the columns at these positions.
fn push_names(text: &mut ByteList, columns: &[Column], positions: &[u16]) -> Result<(), NoMemory>
    requires { All (λ i. i < length columns.now) positions.now }
    ensures { OnOk result (text.new ≡ text.old ++ spaced (names_at columns.now positions.now)) }
{
    for position in positions {
        let column = &columns[usize::from(*position)];
        push_word(text, column.name.bytes())?;
    }
    Ok(())
}

/// Adds the line of a column.
fn push_column(text: &mut ByteList, column: &Column) -> Result<(), NoMemory>
    ensures { OnOk result (text.new ≡ text.old ++ line_of (column_words column.now)) }
{
    text.extend(b"column")?;
    push_word(text, column.name.bytes())?;
    push_type(text, column.kind)?;
    push_word(text, if column.nullable { b"null" } else { b"notnull" })?;
    text.push(b'\n')?;
    Ok(())
}

/// Adds the line of the table.
fn push_table(text: &mut ByteList, schema: &Schema) -> Result<(), NoMemory>
    ensures { OnOk result (text.new ≡ text.old ++ line_of (table_words schema.now)) }
{
    text.extend(b"table")?;
    push_word(text, schema.table())?;
    push_word(
        text,
        match schema.format() {
            Format::Compact => b"compact",
            Format::Dynamic => b"dynamic",
        },
    )?;
    text.push(b'\n')?;
    Ok(())
}

/// Adds the lines of the columns.
fn push_columns(text: &mut ByteList, columns: &[Column]) -> Result<(), NoMemory>
    ensures { OnOk result (text.new
        ≡ text.old ++ flat_map (λ (c : Column). line_of (column_words c)) columns.now) }
{
    for column in columns {
        push_column(text, column)?;
    }
    Ok(())
}

/// Adds the clustered line.
fn push_clustered(text: &mut ByteList, columns: &[Column], index: &IndexDef) -> Result<(), NoMemory>
    requires { HasKnownColumns columns.now index.now }
    ensures { OnOk result (text.new ≡ text.old ++ line_of (clustered_by columns.now index.now)) }
{
    text.extend(b"clustered")?;
    push_word(text, b"root")?;
    push_number(text, index.root)?;
    push_names(text, columns, index.columns.items())?;
    text.push(b'\n')?;
    Ok(())
}

/// Adds the line of another index.
fn push_index(text: &mut ByteList, columns: &[Column], index: &IndexDef) -> Result<(), NoMemory>
    requires { HasKnownColumns columns.now index.now }
    ensures { OnOk result (text.new ≡ text.old ++ line_of (index_by columns.now index.now)) }
{
    text.extend(b"index")?;
    push_word(text, index.name.bytes())?;
    push_word(text, b"root")?;
    push_number(text, index.root)?;
    push_names(text, columns, index.columns.items())?;
    text.push(b'\n')?;
    Ok(())
}

/// Adds the lines of other indexes.
fn push_indexes(
    text: &mut ByteList,
    columns: &[Column],
    indexes: &[IndexDef],
) -> Result<(), NoMemory>
    requires { All (HasKnownColumns columns.now) indexes.now }
    ensures { OnOk result (text.new
        ≡ text.old ++ flat_map (λ (x : IndexDef). line_of (index_by columns.now x)) indexes.now) }
{
    for index in indexes {
        push_index(text, columns, index)?;
    }
    Ok(())
}

impl Schema {
    /// The text of the schema, which `read` reads back: its lines, each with an LF.
    pub fn print(&self, alloc: Global) -> Result<ByteList, NoMemory>
        ensures { IfOk result (λ text. text ≡ schema_text self.now) }
    {
        let _ = &self.table;
        let columns = self.columns();
        let indexes = self.indexes();
        let mut text = ByteList::new(alloc);
        push_table(&mut text, self)?;
        push_columns(&mut text, columns)?;
        push_clustered(&mut text, columns, &indexes[0])?;
        push_indexes(&mut text, columns, &indexes[1..])?;
        Ok(text)
    }
}
