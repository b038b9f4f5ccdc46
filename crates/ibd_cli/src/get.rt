//! The command `get`: the way to one row, and then its line.

ghost use Rattle.ibd_cli.specs.Answers.{ServesFile};
ghost use Rattle.ibd_cli.specs.declared.forms.Task.{Task};

use crate::status::Status;
use key_lookup::get;
use page_source::{ByteSink, PageSource, Steps};
use schema_text::Schema;
use std::alloc::Global;
use std::sync::ledger::Ledger;

/// Puts the row whose key the text spells, where no rule is broken on the way to it.
pub fn get_row<F: PageSource, O: ByteSink, L: Ledger>(
    alloc: Global,
    file: &mut F,
    table: &Schema,
    key: &[u8],
    out: &mut O,
    steps: &mut Steps<L>,
) -> Status
    ensures { ServesFile F.PageSource O.ByteSink Task.Get key.now file.old file.new table.now out.old out.new
        steps.old steps.new result }
{
    match get(alloc, file, table, key, out, steps) {
        Ok(()) => Status::Done,
        Err(stop) => Status::from(stop),
    }
}
