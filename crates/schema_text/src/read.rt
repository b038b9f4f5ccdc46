//! Reading the text of a schema, line by line.

ghost use Rattle.std.specs.Prelude.{◌≡◌, ◌+◌, ◌≤◌, ◌∷◌, ◌++◌, [], length, drop, OnOk, IfOk, IfErr};
ghost use Rattle.std.specs.Prelude.{MatchResult, Some, None, codes, true, decimal, IsTrue, ◌↔◌, All};
ghost use Rattle.std.specs.Prelude.{slice_index_or};
ghost use Rattle.schema_text.specs.declared.errors.SchemaError.TheVariants.{Refused};
ghost use Rattle.schema_text.specs.Grammar.{IsName, IsRoot, format_word, schema_words};
ghost use Rattle.schema_text.specs.Parts.{IsPart};
ghost use Rattle.schema_text.specs.Refusals.{words_of, is_column_line, is_clustered_line, is_index_line};
ghost use Rattle.schema_text.specs.Refusals.{FirstChecks, ColumnChecks, ClusteredLineChecks};
ghost use Rattle.schema_text.specs.Refusals.{IndexLineChecks, NextChecks, KeyChecks, IsClusteredForm};
ghost use Rattle.schema_text.specs.Refusals.{IsIndexForm, AreLinesOf, RefusedAt, ReadsAs};
ghost use Rattle.schema_text.specs.Cuts.{IsIndexRead, IsClusteredRead, IsIndexLineRead};

use crate::checks::{check_column, format_of};
use crate::errors::{SchemaError, SchemaWhy};
use crate::keys::{check_key, places_of};
use crate::line::Words;
use crate::names::are_names;
use crate::part::Part;
use crate::table::{Column, ColumnList, Format, IndexDef, Schema};
use crate::words::{cut, is, is_name};
use page_source::{ByteList, NoMemory};
use std::alloc::Global;

const LONGEST_TEXT: usize = 65_536;

/// The name and the format on the table line.
fn check_table<'a>(line: &Words<'a>) -> Result<(&'a [u8], Format), SchemaWhy>
    ensures { MatchResult result
        (λ found. IsName found.0.now × FirstChecks line.now None
        × (line.now ≡ codes "table" ∷ found.0.now ∷ format_word found.1 ∷ []))
        (λ why. FirstChecks line.now (Some why)) }
{
    if line.len() != 3 {
        return Err(SchemaWhy::Form);
    }
    if !is(line.at(0), b"table") {
        return Err(SchemaWhy::Form);
    }
    let Some(format) = format_of(line.at(2)) else {
        return Err(SchemaWhy::Form);
    };
    let name = line.at(1);
    if !is_name(name) {
        return Err(SchemaWhy::Name);
    }
    Ok((name, format))
}

/// A list of its own with these bytes.
fn owned(alloc: Global, bytes: &[u8]) -> Result<ByteList, NoMemory>
    ensures { IfOk result (λ list. list ≡ bytes.now) }
{
    let mut list = ByteList::new(alloc);
    list.extend(bytes)?;
    Ok(list)
}

/// The table that the first line begins.
fn first_line(alloc: Global, line: &[u8]) -> Result<Part, SchemaError>
    ensures ok { IfOk result (λ part. AreLinesOf part (words_of line.now ∷ [])) }
    ensures checked { OnOk result (FirstChecks (words_of line.now) None) }
    ensures refused { IfErr result (RefusedAt 1 (FirstChecks (words_of line.now))) }
{
    let words = Words::of(alloc, line)?;
    let (name, format) = check_table(&words).map_err(|why| SchemaError::Refused { line: 1, why })?;
    Ok(Part::new(alloc, owned(alloc, name)?, format))
}

/// The refusal of the line behind those of the part.
fn refused(part: &Part, why: SchemaWhy) -> SchemaError
    ensures { result ≡ Refused (length part.now.columns + length part.now.indexes + 2) why }
{
    let line = part.columns().len() + part.indexes().len() + 2;
    SchemaError::Refused {
        line: line as u32,
        why,
    }
}

fn column_line(alloc: Global, part: &mut Part, line: &Words) -> Result<(), SchemaError>
    requires { is_column_line line.now ≡ true }
    ensures ok { OnOk result (AreLinesOf part.new (schema_words part.old ++ line.now ∷ [])) }
    ensures checked { OnOk result (ColumnChecks part.old line.now None) }
    ensures refused { IfErr result
        (RefusedAt (length part.old.columns + length part.old.indexes + 2) (ColumnChecks part.old line.now)) }
{
    let (name, kind, nullable) = check_column(part, line).map_err(|why| refused(part, why))?;
    let column = Column {
        name: owned(alloc, name)?,
        kind,
        nullable,
    };
    part.add_column(column)?;
    Ok(())
}

/// The index that a line states whose checks hold.
fn index_of(
    alloc: Global,
    part: &Part,
    line: &Words,
    from: usize,
    name: &[u8],
    root: u32,
) -> Result<IndexDef, NoMemory>
    requires is_root { IsRoot root }
    requires checked { KeyChecks part.now
        (record { name = name.now; root = decimal root; keys = drop from line.now }) None }
    ensures { IfOk result (λ index. IsIndexRead part.now
        (record { name = name.now; root = decimal root; keys = drop from line.now }) index) }
{
    let number = part.columns().len() + part.indexes().len() + 2;
    let name = owned(alloc, name)?;
    let places = places_of(alloc, part.columns(), line, from)?;
    Ok(IndexDef {
        name,
        root,
        columns: ColumnList::new(places),
        line: number as u32,
    })
}

/// Whether the clustered line may stand here, and has its form.
fn has_clustered_form(part: &Part, line: &Words) -> bool
    ensures form { IsTrue result
        ↔ (1 ≤ length part.now.columns) × (length part.now.indexes ≡ 0) × IsClusteredForm line.now }
    ensures part { IsPart part.now }
{
    part.columns().len() > 0
        && part.indexes().len() == 0
        && line.len() >= 3
        && is(line.at(1), b"root")
}

/// The root on the clustered line.
fn check_clustered(part: &Part, line: &Words) -> Result<u32, SchemaWhy>
    ensures { MatchResult result
        (λ root. IsClusteredRead part.now line.now root)
        (λ why. ClusteredLineChecks part.now line.now (Some why)) }
{
    if !has_clustered_form(part, line) {
        return Err(SchemaWhy::Form);
    }
    if !are_names(line, 3) {
        return Err(SchemaWhy::Name);
    }
    check_key(part, line, 3, b"", line.at(2))
}

fn clustered_line(alloc: Global, part: &mut Part, line: &Words) -> Result<(), SchemaError>
    requires { is_clustered_line line.now ≡ true }
    ensures ok { OnOk result (AreLinesOf part.new (schema_words part.old ++ line.now ∷ [])) }
    ensures checked { OnOk result (ClusteredLineChecks part.old line.now None) }
    ensures refused { IfErr result (RefusedAt (length part.old.columns + length part.old.indexes + 2)
        (ClusteredLineChecks part.old line.now)) }
{
    let root = check_clustered(part, line).map_err(|why| refused(part, why))?;
    let index = index_of(alloc, part, line, 3, b"", root)?;
    part.add_index(index)?;
    Ok(())
}

/// Whether the line of another index may stand here, and has its form.
fn has_index_form(part: &Part, line: &Words) -> bool
    ensures form { IsTrue result ↔ (1 ≤ length part.now.indexes) × IsIndexForm line.now }
    ensures part { IsPart part.now }
{
    part.indexes().len() > 0 && line.len() >= 5 && is(line.at(2), b"root")
}

/// Whether the names on the line of another index are good.
fn has_names(line: &Words) -> bool
    ensures { IsTrue result ↔ IsName (slice_index_or line.now 1 []) × All IsName (drop 4 line.now) }
{
    is_name(line.at(1)) && are_names(line, 4)
}

/// The root on the line of another index.
fn check_index(part: &Part, line: &Words) -> Result<u32, SchemaWhy>
    ensures { MatchResult result
        (λ root. IsIndexLineRead part.now line.now root)
        (λ why. IndexLineChecks part.now line.now (Some why)) }
{
    if !has_index_form(part, line) {
        return Err(SchemaWhy::Form);
    }
    if !has_names(line) {
        return Err(SchemaWhy::Name);
    }
    check_key(part, line, 4, line.at(1), line.at(3))
}

fn index_line(alloc: Global, part: &mut Part, line: &Words) -> Result<(), SchemaError>
    requires { is_index_line line.now ≡ true }
    ensures ok { OnOk result (AreLinesOf part.new (schema_words part.old ++ line.now ∷ [])) }
    ensures checked { OnOk result (IndexLineChecks part.old line.now None) }
    ensures refused { IfErr result (RefusedAt (length part.old.columns + length part.old.indexes + 2)
        (IndexLineChecks part.old line.now)) }
{
    let root = check_index(part, line).map_err(|why| refused(part, why))?;
    let index = index_of(alloc, part, line, 4, line.at(1), root)?;
    part.add_index(index)?;
    Ok(())
}

/// Adds what the line states.
fn next_line(alloc: Global, part: &mut Part, line: &[u8]) -> Result<(), SchemaError>
    ensures ok { OnOk result (AreLinesOf part.new (schema_words part.old ++ words_of line.now ∷ [])) }
    ensures checked { OnOk result (NextChecks part.old (words_of line.now) None) }
    ensures refused { IfErr result (RefusedAt (length part.old.columns + length part.old.indexes + 2)
        (NextChecks part.old (words_of line.now))) }
{
    let words = Words::of(alloc, line)?;
    let first = words.at(0);
    if is(first, b"column") {
        return column_line(alloc, part, &words);
    }
    if is(first, b"clustered") {
        return clustered_line(alloc, part, &words);
    }
    if is(first, b"index") {
        return index_line(alloc, part, &words);
    }
    Err(refused(part, SchemaWhy::Form))
}

impl Schema {
    /// Reads the text of a schema. Refused names the first bad line, counted from 1, and the first check
    /// in the order of `SchemaWhy` that it fails; `End` and `Size` are those of the text as a whole.
    pub fn read(alloc: Global, text: &[u8]) -> Result<Schema, SchemaError>
        ensures { ReadsAs text.now result }
    {
        if text.len() > LONGEST_TEXT {
            return Err(SchemaError::Refused {
                line: 1,
                why: SchemaWhy::Size,
            });
        }
        let Some((line, mut rest)) = cut(text, b'\n') else {
            return Err(SchemaError::Refused {
                line: 1,
                why: SchemaWhy::End,
            });
        };
        let mut part = first_line(alloc, line)?;
        while let Some((line, after)) = cut(rest, b'\n') {
            next_line(alloc, &mut part, line)?;
            rest = after;
        }
        if rest.is_empty() && part.indexes().len() > 0 {
            return Ok(part.finish());
        }
        Err(refused(&part, SchemaWhy::End))
    }
}
