//! The command `check`: all checks, and then the line of the numbers.

ghost use Rattle.std.specs.Prelude.{ℕ, List};
ghost use Rattle.page_source.specs.Calls.{Puts};
ghost use Rattle.ibd_cli.specs.Outcome.{checked_numbers, checked_line};
ghost use Rattle.ibd_cli.specs.Answers.{ServesFile};
ghost use Rattle.ibd_cli.specs.declared.forms.Task.{Task};

use crate::status::Status;
use itoa::Buffer;
use page_source::{ByteSink, Failed, PageSource, Steps, put_pieces};
use schema_text::Schema;
use std::alloc::Global;
use std::sync::ledger::Ledger;
use table_check::{Checked, check};

/// Checks the file, and puts its numbers where no rule is broken.
pub fn check_file<F: PageSource, O: ByteSink, L: Ledger>(
    alloc: Global,
    file: &mut F,
    table: &Schema,
    out: &mut O,
    steps: &mut Steps<L>,
) -> Status
    ensures { (key : List ℕ) → ServesFile F.PageSource O.ByteSink Task.Check key file.old file.new table.now
        out.old out.new steps.old steps.new result }
{
    match check(alloc, file, table, steps) {
        Ok(checked) => match put_checked(out, &checked) {
            Ok(()) => Status::Done,
            Err(Failed) => Status::SinkFault,
        },
        Err(stop) => Status::from(stop),
    }
}

fn put_checked<O: ByteSink>(out: &mut O, checked: &Checked) -> Result<(), Failed>
    ensures { Puts O.ByteSink out.old out.new (checked_line checked.now) result }
{
    put_numbers(out, checked)?;
    out.put(b"\n")
}

/// Puts the numbers of a checked file, each behind its name.
pub(crate) fn put_numbers<O: ByteSink>(out: &mut O, checked: &Checked) -> Result<(), Failed>
    ensures { Puts O.ByteSink out.old out.new (checked_numbers checked.now) result }
{
    let mut pages = Buffer::new();
    let mut used = Buffer::new();
    let mut rows = Buffer::new();
    let mut deleted = Buffer::new();
    let mut unreached = Buffer::new();
    let pieces = [
        b"pages=".as_slice(),
        pages.format(checked.pages).as_bytes(),
        b" used=",
        used.format(checked.used).as_bytes(),
        b" rows=",
        rows.format(checked.rows).as_bytes(),
        b" deleted=",
        deleted.format(checked.deleted).as_bytes(),
        b" unreached=",
        unreached.format(checked.unreached).as_bytes(),
    ];
    put_pieces(out, &pieces)
}
