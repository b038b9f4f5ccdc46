//! The command `cross`: all checks, then the indexes beside the rows, and then the line of the numbers.

ghost use Rattle.std.specs.Prelude.{ℕ, List};
ghost use Rattle.page_source.specs.Calls.{Puts};
ghost use Rattle.ibd_cli.specs.Outcome.{crossed_line};
ghost use Rattle.ibd_cli.specs.Answers.{ServesFile};
ghost use Rattle.ibd_cli.specs.declared.forms.Task.{Task};

use crate::status::Status;
use cross_index::{Crossed, cross};
use itoa::Buffer;
use page_source::{ByteSink, Failed, PageSource, Steps, put_pieces};
use schema_text::Schema;
use std::alloc::Global;
use std::sync::ledger::Ledger;
use table_check::laws::checks_are_validity;

/// Checks the file, compares its indexes with its rows, and puts how many there are where they fit.
pub fn cross_file<F: PageSource, O: ByteSink, L: Ledger>(
    alloc: Global,
    file: &mut F,
    table: &Schema,
    out: &mut O,
    steps: &mut Steps<L>,
) -> Status
    ensures { (key : List ℕ) → ServesFile F.PageSource O.ByteSink Task.Cross key file.old file.new table.now
        out.old out.new steps.old steps.new result }
{
    checks_are_validity();
    match cross(alloc, file, table, steps) {
        Ok(crossed) => match put_crossed(out, &crossed) {
            Ok(()) => Status::Done,
            Err(Failed) => Status::SinkFault,
        },
        Err(stop) => Status::from(stop),
    }
}

fn put_crossed<O: ByteSink>(out: &mut O, crossed: &Crossed) -> Result<(), Failed>
    ensures { Puts O.ByteSink out.old out.new (crossed_line crossed.now) result }
{
    let mut indexes = Buffer::new();
    let mut entries = Buffer::new();
    let pieces = [
        b"indexes=".as_slice(),
        indexes.format(crossed.indexes).as_bytes(),
        b" entries=",
        entries.format(crossed.entries).as_bytes(),
        b"\n",
    ];
    put_pieces(out, &pieces)
}
