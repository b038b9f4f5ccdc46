//! The checks of one column.

ghost use Rattle.std.specs.Prelude.{◌≡◌, ◌+◌, ◌≤◌, length, IfOk};
ghost use Rattle.page_source.specs.Lists.{unmarked};
ghost use Rattle.page_source.specs.Calls.{OfFile};
ghost use Rattle.sql_dump.specs.Cells.{ReadsValue, pages_of_cell};
ghost use Rattle.column_values.specs.declared.value.Value.{Value};
ghost use Rattle.row_salvage.specs.Missed.{UnderMissed};
ghost use Rattle.row_salvage.specs.Calls.{CanLook, LooksOver, AnswersCell, loss_of};

use crate::chain_check::{Chain, check_parts};
use leaf_salvage::space_id;
use page_source::{Page, PageSource, Rule, Steps};
use salvage_model::Loss;
use space_audit::Marks;
use sql_dump::Cell;
use std::sync::ledger::Ledger;
use table_check::{split_local, text_of};

/// Checks the value of a column on leaf number `leaf`, and answers how many pages it goes on in. Marks the pages that
/// are looked at. `pages` is the number of pages that are looked at in the file.
pub(crate) fn check_cell<S: PageSource, L: Ledger>(
    source: &mut S,
    cell: &Cell,
    leaf: u32,
    pages: u32,
    marks: &mut Marks,
    page: &mut Page,
    steps: &mut Steps<L>,
) -> Result<u32, Loss>
    requires ready { CanLook S.PageSource source.old pages marks.old }
    ensures answers { OfFile S.PageSource source.old (λ file.
        UnderMissed marks.old marks.new (S.faults source.old) (S.faults source.new) (λ missed.
        AnswersCell file missed leaf cell.now marks.old marks.new (loss_of result))) }
    ensures reads { IfOk result (λ count. OfFile S.PageSource source.old (λ file.
        (value : Value) × ReadsValue file cell.now value)) }
    ensures count { IfOk result (λ count. OfFile S.PageSource source.old (λ file.
        count ≡ length (pages_of_cell file cell.now))) }
    ensures fewer { IfOk result (λ count. count + unmarked marks.new ≤ unmarked marks.old) }
    ensures over { LooksOver S.PageSource source.old source.new marks.old marks.new steps.old steps.new }
{
    if !cell.is_sound() {
        return Err(Loss::Broken(Rule::Value.at(leaf)));
    }
    if cell.place.null || !cell.place.external {
        return Ok(0);
    }
    let (front, reference) = split_local(cell.local());
    let mut text = text_of(cell.kind);
    text.feed(front);
    let chain = Chain {
        pages,
        space: space_id(cell.page),
        leaf,
        reference,
    };
    check_parts(source, chain, &mut text, marks, page, steps)
}
