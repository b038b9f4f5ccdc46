//! The checks of a line behind those of a table so far.

ghost use Rattle.std.specs.Prelude.{◌≡◌, IsSome, IfSome, MatchResult, Some, true};
ghost use Rattle.schema_text.specs.Grammar.{format_word, nullity_word};
ghost use Rattle.schema_text.specs.Refusals.{IsFormatWord, IsNullityWord, ColumnChecks, is_column_line};
ghost use Rattle.schema_text.specs.Cuts.{IsColumnRead};

use crate::errors::SchemaWhy;
use crate::line::Words;
use crate::names::has_column;
use crate::part::Part;
use crate::table::Format;
use crate::types::type_on;
use crate::words::{is, is_name};
use column_values::ColumnType;

const MOST_COLUMNS: usize = 64;

/// The format that the word names.
pub(crate) fn format_of(word: &[u8]) -> Option<Format>
    ensures found { IfSome result (λ format. word.now ≡ format_word format) }
    ensures only { IsFormatWord word.now → IsSome result }
{
    if is(word, b"compact") {
        return Some(Format::Compact);
    }
    is(word, b"dynamic").then_some(Format::Dynamic)
}

/// Whether a row may hold no value in the column.
fn nullity(word: &[u8]) -> Option<bool>
    ensures found { IfSome result (λ nullable. word.now ≡ nullity_word nullable) }
    ensures only { IsNullityWord word.now → IsSome result }
{
    if is(word, b"null") {
        return Some(true);
    }
    is(word, b"notnull").then_some(false)
}

/// The column on a column line: its name, its type, and whether it is nullable.
pub(crate) fn check_column<'a>(
    part: &Part,
    line: &Words<'a>,
) -> Result<(&'a [u8], ColumnType, bool), SchemaWhy>
    requires { is_column_line line.now ≡ true }
    ensures { MatchResult result
        (λ found. IsColumnRead part.now line.now found.0.now found.1 found.2)
        (λ why. ColumnChecks part.now line.now (Some why)) }
{
    if part.indexes().len() > 0 || line.len() < 4 {
        return Err(SchemaWhy::Form);
    }
    let Some(kind) = type_on(line) else {
        return Err(SchemaWhy::Form);
    };
    let Some(nullable) = nullity(line.at(line.len() - 1)) else {
        return Err(SchemaWhy::Form);
    };
    let name = line.at(1);
    if !is_name(name) {
        return Err(SchemaWhy::Name);
    }
    let Some(kind) = kind else {
        return Err(SchemaWhy::Number);
    };
    if part.columns().len() >= MOST_COLUMNS {
        return Err(SchemaWhy::Count);
    }
    if has_column(part.columns(), name) {
        return Err(SchemaWhy::Twice);
    }
    Ok((name, kind, nullable))
}
