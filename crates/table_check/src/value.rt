//! The values of a record's columns.

ghost use Rattle.std.specs.Prelude.{◌≡◌, ◌+◌, ◌-◌, ◌≤◌, ◌↔◌, IsTrue, ℕ, List, [], length, IfOk, OnOk, true};
ghost use Rattle.page_source.specs.Lists.{unmarked};
ghost use Rattle.page_source.specs.Checks.{Halts};
ghost use Rattle.page_source.specs.Calls.{OfFile, AsksNoMore};
ghost use Rattle.column_values.specs.Types.{IsColumnType};
ghost use Rattle.column_values.specs.Characters.{IsTextOfKind};
ghost use Rattle.column_values.specs.Utf8Reader.{CountsUpTo, WasFed, TakesText};
ghost use Rattle.compact_record.specs.Keys.{LiesBelow};
ghost use Rattle.space_audit.specs.Marks.{is_set, Marked};
ghost use Rattle.table_check.specs.Marking.{ChecksPages};
ghost use Rattle.table_check.specs.Values.{ValueChecksBy, pages_of_value, front_of};
ghost use Rattle.table_check.specs.Leaf.{place_on, ValueChecksOn, pages_of_value_on};
ghost use Rattle.offpage_chain.specs.Reference.{reference_of};
ghost use Rattle.offpage_chain.specs.Places.{CanCheck};

use crate::leaf::RowLeaf;
use column_values::{ColumnType, Utf8, greatest_length, is_value};
use compact_record::Place;
use offpage_chain::layout::REFERENCE_SIZE;
use offpage_chain::{Reference, check_chain_in, read_reference};
use page_source::{Halt, Page, PageSource, Rule, Steps};
use space_audit::Marks;
use std::sync::ledger::Ledger;

/// A reader of the texts of a type; any bytes are one, where it isn't of utf8mb4.
pub fn text_of(kind: &ColumnType) -> Utf8
    ensures fresh { WasFed result [] }
    ensures takes { (text : List ℕ) → TakesText result text ↔ IsTextOfKind kind.now text }
    ensures count { CountsUpTo 0 result }
{
    match *kind {
        ColumnType::Utf8Varchar { n } => Utf8::limit(n),
        ColumnType::Utf8Text { .. } => Utf8::limit(u32::MAX),
        _ => Utf8::any(),
    }
}

/// Splits the local bytes of a value that goes on elsewhere: those that begin the value, and the reference after them.
pub fn split_local(local: &[u8]) -> (&[u8], Reference)
    requires { 20 ≤ length local.now }
    ensures front { result.0.now ≡ front_of local.now }
    ensures size { length result.0.now ≡ length local.now - 20 }
    ensures reference { result.1 ≡ reference_of local.now }
{
    let (front, reference) = local.split_at(local.len() - REFERENCE_SIZE);
    (front, read_reference(reference))
}

/// Checks a value that goes on in pages of its own, by the rules 47, 48, 49 and 51, in a space that
/// wasn't audited also 25: these are its local bytes on the leaf. Its pages are marked. Answers how many there are.
fn check_external<S: PageSource, L: Ledger>(
    source: &mut S,
    leaf: &RowLeaf,
    kind: &ColumnType,
    local: &[u8],
    marks: &mut Marks,
    page: &mut Page,
    steps: &mut Steps<L>,
) -> Result<u32, Halt>
    requires least { 20 ≤ length local.now }
    requires most { length local.now ≤ 16384 }
    requires ready { CanCheck S.PageSource source.old leaf.now.pages marks.old }
    ensures checks { ChecksPages S.PageSource source.old source.new marks.old marks.new steps.old steps.new result
        (λ file. ValueChecksBy file (place_on file leaf.now) leaf.now.number kind.now local.now true (is_set marks.old))
        (λ file. pages_of_value file local.now true) }
    ensures asked { AsksNoMore S.PageSource source.old source.new steps.old steps.new }
    ensures steps_if_told { OfFile S.PageSource source.old (λ file.
        steps.new ≤ steps.old + length (pages_of_value file local.now true)) }
{
    let (front, reference) = split_local(local);
    if front.len() + reference.length as usize > greatest_length(*kind) {
        return Err(Halt::Broken(Rule::Value.at(leaf.number)));
    }
    let mut text = text_of(kind);
    text.feed(front);
    check_chain_in(
        source,
        &leaf.pages,
        leaf.number,
        &reference,
        &mut text,
        marks,
        page,
        steps,
    )
}

/// Checks the value of a column that isn't null, by the rules 47, 48, 49 and 51, in a space that wasn't audited
/// also 25. Its local bytes lie here on the leaf. Marks the pages that it goes on in, and answers how many there are.
pub(crate) fn check_value<S: PageSource, L: Ledger>(
    source: &mut S,
    leaf: &RowLeaf,
    kind: &ColumnType,
    place: Place,
    marks: &mut Marks,
    page: &mut Page,
    steps: &mut Steps<L>,
) -> Result<u32, Halt>
    requires known { IsColumnType kind.now }
    requires lies { LiesBelow 16384 place }
    requires ready { CanCheck S.PageSource source.old leaf.now.pages marks.old }
    ensures checks { ChecksPages S.PageSource source.old source.new marks.old marks.new steps.old steps.new result
        (λ file. ValueChecksOn file leaf.now kind.now place (is_set marks.old))
        (λ file. pages_of_value_on file leaf.now place) }
    ensures asked { AsksNoMore S.PageSource source.old source.new steps.old steps.new }
    ensures steps_if_told { OfFile S.PageSource source.old (λ file.
        steps.new ≤ steps.old + length (pages_of_value_on file leaf.now place)) }
{
    let local = &leaf.page.bytes()[place.from..place.until];
    if place.external {
        return check_external(source, leaf, kind, local, marks, page, steps);
    }
    if !is_value(kind, local) {
        return Err(Halt::Broken(Rule::Value.at(leaf.number)));
    }
    Ok(0)
}
