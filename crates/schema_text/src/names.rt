//! Names and roots that stand before a line or on it.

ghost use Rattle.std.specs.Prelude.{◌≡◌, ◌≢◌, ◌≤◌, ◌<◌, ◌↔◌, [], ℕ, List, length, drop, slice_index_or};
ghost use Rattle.std.specs.Prelude.{All, AllPairs, Any, IsTrue, position, bytes_eq, IfSome};
ghost use Rattle.std.specs.Bool.{OnFalse};
ghost use Rattle.std.specs.Option.{option_copied};
ghost use Rattle.schema_text.specs.declared.table.Column.{Column};
ghost use Rattle.schema_text.specs.declared.table.IndexDef.{IndexDef};
ghost use Rattle.schema_text.specs.Grammar.{IsName};
ghost use Rattle.schema_text.specs.Refusals.{column_named};
ghost use Rattle.schema_text.specs.Cuts.{StandsBetween, IsAmong};

use crate::line::Words;
use crate::table::{Column, IndexDef};
use crate::words::is_name;

/// Whether a column has the name.
pub(crate) fn has_column(columns: &[Column], name: &[u8]) -> bool
    ensures yes { IsTrue result ↔ IsAmong columns.now name.now }
    ensures no { OnFalse result (All (λ (c : Column). c.name ≢ name.now) columns.now) }
{
    columns.iter().any(|c| c.name.bytes() == name)
}

/// The place of the first column of this name.
pub(crate) fn position_of(columns: &[Column], name: &[u8]) -> Option<usize>
    ensures value { result ≡ position (λ (c : Column). bytes_eq c.name name.now) columns.now }
    ensures bound { IfSome result (λ place. place < length columns.now) }
{
    columns.iter().position(|c| c.name.bytes() == name)
}

/// The column of this name.
pub(crate) fn column_of<'a>(columns: &'a [Column], name: &[u8]) -> Option<&'a Column>
    ensures { option_copied result ≡ column_named columns.now name.now }
{
    columns.iter().find(|c| c.name.bytes() == name)
}

/// Whether an index has the name.
pub(crate) fn has_index(indexes: &[IndexDef], name: &[u8]) -> bool
    ensures yes { IsTrue result ↔ Any (λ (x : IndexDef). x.name ≡ name.now) indexes.now }
    ensures no { OnFalse result (All (λ (x : IndexDef). x.name ≢ name.now) indexes.now) }
{
    indexes.iter().any(|x| x.name.bytes() == name)
}

/// Whether an index has the root.
pub(crate) fn has_root(indexes: &[IndexDef], root: u32) -> bool
    ensures yes { IsTrue result ↔ Any (λ (x : IndexDef). x.root ≡ root) indexes.now }
    ensures no { OnFalse result (All (λ (x : IndexDef). x.root ≢ root) indexes.now) }
{
    indexes.iter().any(|x| x.root == root)
}

/// Whether the words from a place on are names.
pub(crate) fn are_names(line: &Words, from: usize) -> bool
    ensures { IsTrue result ↔ All IsName (drop from line.now) }
{
    for i in from..line.len() {
        if !is_name(line.at(i)) {
            return false;
        }
    }
    true
}

/// Whether the word stands between two places.
fn stands_between(line: &Words, from: usize, to: usize, word: &[u8]) -> bool
    ensures { IsTrue result ↔ StandsBetween line.now from to word.now }
{
    for i in from..to {
        if line.at(i) == word {
            return true;
        }
    }
    false
}

/// Whether no word from a place on stands there twice.
pub(crate) fn keys_differ(line: &Words, from: usize) -> bool
    ensures { IsTrue result ↔ AllPairs (λ (a b : List ℕ). a ≢ b) (drop from line.now) }
{
    for i in from..line.len() {
        if stands_between(line, from, i, line.at(i)) {
            return false;
        }
    }
    true
}

/// Whether the words from a place on are names of columns.
pub(crate) fn are_declared(columns: &[Column], line: &Words, from: usize) -> bool
    ensures { IsTrue result ↔ All (IsAmong columns.now) (drop from line.now) }
{
    for i in from..line.len() {
        if !has_column(columns, line.at(i)) {
            return false;
        }
    }
    true
}
