//! The command `dump`: all checks, and then the lines of the rows.

ghost use Rattle.std.specs.Prelude.{ℕ, List};
ghost use Rattle.ibd_cli.specs.Answers.{ServesFile};
ghost use Rattle.ibd_cli.specs.declared.forms.Task.{Task};

use crate::status::Status;
use page_source::{ByteSink, PageSource, Steps};
use schema_text::Schema;
use sql_dump::dump;
use std::alloc::Global;
use std::sync::ledger::Ledger;
use table_check::laws::checks_are_validity;

/// Checks the file, and puts its rows where no rule is broken.
pub fn dump_file<F: PageSource, O: ByteSink, L: Ledger>(
    alloc: Global,
    file: &mut F,
    table: &Schema,
    out: &mut O,
    steps: &mut Steps<L>,
) -> Status
    ensures { (key : List ℕ) → ServesFile F.PageSource O.ByteSink Task.Dump key file.old file.new table.now
        out.old out.new steps.old steps.new result }
{
    checks_are_validity();
    match dump(alloc, file, table, out, steps) {
        Ok(_) => Status::Done,
        Err(stop) => Status::from(stop),
    }
}
