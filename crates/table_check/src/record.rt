//! The values of a record, field by field.

ghost use Rattle.std.specs.Prelude.{◌≡◌, ◌+◌, ◌≤◌, length, All};
ghost use Rattle.page_source.specs.Calls.{OfFile, AsksNoMore};
ghost use Rattle.column_values.specs.Types.{AreFields, IsFieldKind};
ghost use Rattle.compact_record.specs.Keys.{LiesBelow, IsWholeReading};
ghost use Rattle.space_audit.specs.Marks.{is_set};
ghost use Rattle.offpage_chain.specs.Places.{CanCheck};
ghost use Rattle.table_check.specs.Marking.{ChecksPages};
ghost use Rattle.table_check.specs.Leaf.{FieldChecksOn, RowChecksOn, pages_of_field_on, pages_of_row_on};

use crate::leaf::RowLeaf;
use crate::value::check_value;
use column_values::FieldType;
use compact_record::{Located, Place};
use page_source::{Halt, Page, PageSource, Steps};
use space_audit::Marks;
use std::sync::ledger::Ledger;

/// Checks the value of the field that lies here on the leaf, where it is a column that isn't null. Marks the pages
/// that it goes on in, and answers how many there are.
fn check_field<S: PageSource, L: Ledger>(
    source: &mut S,
    leaf: &RowLeaf,
    kind: FieldType,
    place: Place,
    marks: &mut Marks,
    page: &mut Page,
    steps: &mut Steps<L>,
) -> Result<u32, Halt>
    requires known { IsFieldKind kind }
    requires lies { LiesBelow 16384 place }
    requires ready { CanCheck S.PageSource source.old leaf.now.pages marks.old }
    ensures checks { ChecksPages S.PageSource source.old source.new marks.old marks.new steps.old steps.new result
        (λ file. FieldChecksOn file leaf.now kind place (is_set marks.old))
        (λ file. pages_of_field_on file leaf.now kind place) }
    ensures asked { AsksNoMore S.PageSource source.old source.new steps.old steps.new }
    ensures steps_if_told { OfFile S.PageSource source.old (λ file.
        steps.new ≤ steps.old + length (pages_of_field_on file leaf.now kind place)) }
{
    let FieldType::Column(kind) = kind else {
        return Ok(0);
    };
    if place.null {
        return Ok(0);
    }
    check_value(source, leaf, &kind, place, marks, page, steps)
}

/// Checks the values of the row that was read from the leaf, by the rules 47, 48, 49 and 51, in a space that wasn't
/// audited also 25. Marks the pages that they go on in, and answers how many there are.
pub fn check_row_values<S: PageSource, L: Ledger>(
    source: &mut S,
    leaf: &RowLeaf,
    located: &Located,
    marks: &mut Marks,
    page: &mut Page,
    steps: &mut Steps<L>,
) -> Result<u32, Halt>
    requires fields { AreFields leaf.now.fields.now }
    requires whole { IsWholeReading leaf.now.page.now leaf.now.fields.now located.now }
    requires lies { All (LiesBelow 16384) located.now.places }
    requires ready { CanCheck S.PageSource source.old leaf.now.pages marks.old }
    ensures checks { ChecksPages S.PageSource source.old source.new marks.old marks.new steps.old steps.new result
        (λ file. RowChecksOn file leaf.now located.now.origin (is_set marks.old))
        (λ file. pages_of_row_on file leaf.now located.now.origin) }
    ensures asked { AsksNoMore S.PageSource source.old source.new steps.old steps.new }
    ensures steps_if_told { OfFile S.PageSource source.old (λ file.
        steps.new ≤ steps.old + length (pages_of_row_on file leaf.now located.now.origin)) }
{
    let _size = leaf.pages.size();
    let mut count = 0;
    for (i, field) in leaf.fields.fields().iter().enumerate() {
        count += check_field(
            source,
            leaf,
            field.kind,
            located.places()[i],
            marks,
            page,
            steps,
        )?;
    }
    Ok(count)
}
