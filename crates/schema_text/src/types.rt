//! The words of a column's type.

ghost use Rattle.std.specs.Prelude.{◌≡◌, ◌≤◌, [], ◌∷◌, ◌++◌, ◌⊎◌, List, ℕ, length, codes, IsTrue, IfOk};
ghost use Rattle.std.specs.Prelude.{IfSome, Some, Err, ◌↔◌};
ghost use Rattle.column_values.specs.declared.kind.ColumnType.{ColumnType};
ghost use Rattle.column_values.specs.Types.{IsWidth, IsLongLength, IsColumnType};
ghost use Rattle.schema_text.specs.Grammar.{int_word, long_prefix, type_words};
ghost use Rattle.schema_text.specs.Refusals.{IsSizedWord, type_part};
ghost use Rattle.schema_text.specs.Cuts.{IsSizedType, IsTypeRead, Parses, SpellsType};

use crate::line::Words;
use crate::words::{decimal_number, is};
use column_values::ColumnType;

/// The width of the integers that the word names.
fn int_width(word: &[u8]) -> Option<u8>
    ensures { Parses (λ width. IsWidth width × (word.now ≡ int_word width)) result }
{
    if is(word, b"tinyint") {
        Some(1)
    } else if is(word, b"smallint") {
        Some(2)
    } else if is(word, b"mediumint") {
        Some(3)
    } else if is(word, b"int") {
        Some(4)
    } else {
        is(word, b"bigint").then_some(8)
    }
}

/// The greatest length of the text kind that the word names.
fn text_length(word: &[u8]) -> Option<u32>
    ensures { Parses (λ n. IsLongLength n × (word.now ≡ long_prefix n ++ codes "text")) result }
{
    if is(word, b"tinytext") {
        Some(255)
    } else if is(word, b"text") {
        Some(65535)
    } else if is(word, b"mediumtext") {
        Some(16777215)
    } else {
        is(word, b"longtext").then_some(4294967295)
    }
}

/// The greatest length of the blob kind that the word names.
fn blob_length(word: &[u8]) -> Option<u32>
    ensures { Parses (λ n. IsLongLength n × (word.now ≡ long_prefix n ++ codes "blob")) result }
{
    if is(word, b"tinyblob") {
        Some(255)
    } else if is(word, b"blob") {
        Some(65535)
    } else if is(word, b"mediumblob") {
        Some(16777215)
    } else {
        is(word, b"longblob").then_some(4294967295)
    }
}

/// The type that a single word names.
fn plain_type(word: &[u8]) -> Option<ColumnType>
    ensures { Parses (SpellsType (word.now ∷ [])) result }
{
    if let Some(width) = int_width(word) {
        return Some(ColumnType::Int {
            width,
            signed: true,
        });
    }
    if let Some(n) = text_length(word) {
        return Some(ColumnType::Text { n });
    }
    if let Some(n) = blob_length(word) {
        return Some(ColumnType::Blob { n });
    }
    if is(word, b"date") {
        Some(ColumnType::Date)
    } else {
        is(word, b"year").then_some(ColumnType::Year)
    }
}

/// The type that the word names with this number.
fn sized_type(word: &[u8], n: u32) -> Option<ColumnType>
    ensures found { IfSome result (λ kind. IsColumnType kind × IsSizedType word.now n kind) }
    ensures only { (kind : ColumnType) → IsColumnType kind → IsSizedType word.now n kind
        → result ≡ Some kind }
{
    if is(word, b"char") {
        (1 <= n && n <= 255).then_some(ColumnType::Char { n })
    } else if is(word, b"varchar") {
        (1 <= n && n <= 65535).then_some(ColumnType::Varchar { n })
    } else if is(word, b"binary") {
        (1 <= n && n <= 255).then_some(ColumnType::Binary { n })
    } else if is(word, b"varbinary") {
        (1 <= n && n <= 65535).then_some(ColumnType::Varbinary { n })
    } else if is(word, b"datetime") && n <= 6 {
        Some(ColumnType::DateTime { f: n as u8 })
    } else if is(word, b"timestamp") && n <= 6 {
        Some(ColumnType::Timestamp { f: n as u8 })
    } else {
        None
    }
}

/// Whether one number follows the word.
fn is_sized_word(word: &[u8]) -> bool
    ensures { IsTrue result ↔ IsSizedWord word.now }
{
    is(word, b"char")
        || is(word, b"varchar")
        || is(word, b"binary")
        || is(word, b"varbinary")
        || is(word, b"datetime")
        || is(word, b"timestamp")
}

/// The type that two words name.
fn pair_type(first: &[u8], second: &[u8]) -> Option<ColumnType>
    ensures { Parses (SpellsType (first.now ∷ second.now ∷ [])) result }
{
    if let Some(width) = int_width(first) {
        return is(second, b"unsigned").then_some(ColumnType::Int {
            width,
            signed: false,
        });
    }
    if let Some(n) = text_length(first) {
        return is(second, b"utf8mb4").then_some(ColumnType::Utf8Text { n });
    }
    sized_type(first, decimal_number(second)?)
}

/// A `varchar` of utf8mb4.
fn utf8_type(size: &[u8]) -> Option<ColumnType>
    ensures { Parses (SpellsType (codes "varchar" ∷ size.now ∷ codes "utf8mb4" ∷ [])) result }
{
    let n = decimal_number(size)?;
    (1 <= n && n <= 16383).then_some(ColumnType::Utf8Varchar { n })
}

/// A decimal of so many digits, some of them behind the point.
fn decimal_type(digits: &[u8], behind: &[u8]) -> Option<ColumnType>
    ensures { Parses (SpellsType (codes "decimal" ∷ digits.now ∷ behind.now ∷ [])) result }
{
    let p = decimal_number(digits)?;
    let s = decimal_number(behind)?;
    if 1 <= p && p <= 38 && s <= p.min(30) {
        Some(ColumnType::Decimal {
            p: p as u8,
            s: s as u8,
        })
    } else {
        None
    }
}

fn one_word(first: &[u8]) -> Option<Option<ColumnType>>
    ensures { IsTypeRead (first.now ∷ []) result }
{
    plain_type(first).map(Some)
}

fn two_words(first: &[u8], second: &[u8]) -> Option<Option<ColumnType>>
    ensures { IsTypeRead (first.now ∷ second.now ∷ []) result }
{
    match pair_type(first, second) {
        Some(kind) => Some(Some(kind)),
        None => is_sized_word(first).then_some(None),
    }
}

fn three_words(first: &[u8], second: &[u8], third: &[u8]) -> Option<Option<ColumnType>>
    ensures { IsTypeRead (first.now ∷ second.now ∷ third.now ∷ []) result }
{
    if is(first, b"varchar") && is(third, b"utf8mb4") {
        return Some(utf8_type(second));
    }
    if is(first, b"decimal") {
        return Some(decimal_type(second, third));
    }
    None
}

/// The type on a column line: none where no type has such words, and none within where only their numbers are wrong.
pub(crate) fn type_on(line: &Words) -> Option<Option<ColumnType>>
    requires { 4 ≤ length line.now }
    ensures { IsTypeRead (type_part line.now) result }
{
    match line.len() {
        4 => one_word(line.at(2)),
        5 => two_words(line.at(2), line.at(3)),
        6 => three_words(line.at(2), line.at(3), line.at(4)),
        _ => None,
    }
}
