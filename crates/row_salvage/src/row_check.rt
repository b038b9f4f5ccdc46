//! The checks of all columns of a record.

ghost use Rattle.std.specs.Prelude.{◌≡◌, ◌+◌, ◌≤◌, ◌↔◌, IsTrue, true, length, IfOk};
ghost use Rattle.page_source.specs.Lists.{unmarked};
ghost use Rattle.page_source.specs.Calls.{OfFile};
ghost use Rattle.row_salvage.specs.Missed.{UnderMissed};
ghost use Rattle.salvage_model.specs.SavedRow.{CanSave, is_whole_row, saved_pages};
ghost use Rattle.row_salvage.specs.Calls.{CanLook, LooksOver, AnswersRow};

use crate::column_check::check_cell;
use page_source::{NoMemory, Page, PageSource, Steps};
use salvage_model::Loss;
use schema_text::Schema;
use space_audit::Marks;
use sql_dump::Row;
use std::alloc::Global;
use std::marker::Model;
use std::sync::ledger::Ledger;

/// What the columns of a record are lost by, in the order of the table: none for a value that is whole. It is used for
/// one record after another.
#[derive(Debug, Drop)]
pub struct ColumnLosses {
    losses: Vec<Option<Loss>>,
}

impl Model for ColumnLosses {
    ghost use Rattle.std.specs.Prelude.{List, Option};
    ghost use Rattle.salvage_model.specs.declared.loss.Loss.{Loss};

    ghost Value = { List (Option Loss) };

    ghost view = { λ c. c.losses.items };
}

impl ColumnLosses {
    /// Room for the columns of a table.
    pub fn new(alloc: Global, schema: &Schema) -> Result<ColumnLosses, NoMemory>
        ensures { IfOk result (λ losses. length losses ≡ length schema.now.columns) }
    {
        Ok(ColumnLosses {
            losses: Vec::from_elem(alloc, None, schema.columns().len())?,
        })
    }

    /// The losses, column by column.
    pub fn items(&self) -> &[Option<Loss>]
        ensures { result.now ≡ self.now }
    {
        &self.losses
    }

    /// Whether nothing is lost.
    pub fn is_whole(&self) -> bool
        ensures { result ≡ is_whole_row self.now }
    {
        self.losses.iter().all(|loss| loss.is_none())
    }
}

/// Checks the columns of a record on a leaf that stands by itself, in the order of the table: which of them are lost,
/// by the first of the rules 25, 47, 48, 49 and 51 that is broken, or by a page of a chain that can't be fetched. A
/// page of a chain is fetched only if it isn't marked yet, and is marked then, even if the fetch fails; a chain that
/// comes to a marked page is broken there. `pages` is the number of pages that are looked at in the file. Answers in
/// how many pages the values that aren't lost go on.
pub fn check_columns<S: PageSource, L: Ledger>(
    source: &mut S,
    row: &Row,
    pages: u32,
    marks: &mut Marks,
    page: &mut Page,
    losses: &mut ColumnLosses,
    steps: &mut Steps<L>,
) -> u32
    requires ready { CanLook S.PageSource source.old pages marks.old }
    requires room { length losses.old ≡ length row.now.row.table.columns }
    ensures answers { OfFile S.PageSource source.old (λ file.
        UnderMissed marks.old marks.new (S.faults source.old) (S.faults source.new) (λ missed.
        AnswersRow file missed row.now marks.old marks.new losses.new)) }
    ensures saves { OfFile S.PageSource source.old (λ file. CanSave file row.now.row losses.new result) }
    ensures count { OfFile S.PageSource source.old (λ file. result ≡ length (saved_pages file row.now.row losses.new)) }
    ensures room { length losses.new ≡ length losses.old }
    ensures fewer { result + unmarked marks.new ≤ unmarked marks.old }
    ensures over { LooksOver S.PageSource source.old source.new marks.old marks.new steps.old steps.new }
{
    let mut count = 0;
    for c in 0..row.schema.columns().len() {
        let cell = row.cell(c);
        match check_cell(source, &cell, row.number, pages, marks, page, steps) {
            Ok(parts) => {
                losses.losses[c] = None;
                count += parts;
            }
            Err(loss) => losses.losses[c] = Some(loss),
        }
    }
    count
}
