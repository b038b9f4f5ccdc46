//! The whole program as one call over the objects that reach outside.

ghost use Rattle.std.specs.Prelude.{◌≡◌};
ghost use Rattle.page_source.specs.Calls.{OfFile};
ghost use Rattle.salvage_model.specs.Causes.{counts_of};
ghost use Rattle.ibd_salvage.specs.Run.{IsSalvage, SavesOver, Serves};
ghost use Rattle.ibd_salvage.specs.Program.{Runs};

use crate::forms::{Form, form_of};
use crate::report::report;
use crate::status::{SalvageStatus, status_of};
use command_line::{Words, read_schema};
use page_source::{ByteSink, ByteSource, PageSource, Steps};
use schema_text::Schema;
use schema_text::laws::{has_one_schema, texts_pass};
use std::alloc::Global;
use std::sync::ledger::Ledger;
use table_salvage::salvage_regardless;

/// Saves what the words ask for, and answers how it ended. The words are those of the command line without the
/// program's name; `file` and `schema` are read, `out` and `err` written: the lines of the records to `out`, and what
/// is lost to `err` as it is met, and then the line of the status. A failure of `err` ends nothing.
pub fn run_salvage<F: PageSource, Q: ByteSource, O: ByteSink, E: ByteSink, L: Ledger>(
    alloc: Global,
    words: &Words,
    file: &mut F,
    schema: &mut Q,
    out: &mut O,
    err: &mut E,
    steps: &mut Steps<L>,
) -> SalvageStatus
    ensures { Runs
        (record { file = F.PageSource; schema = Q.ByteSource; out = O.ByteSink; err = E.ByteSink })
        words.now
        (record { file = file.old; schema = schema.old; out = out.old; err = err.old })
        (record { file = file.new; schema = schema.new; out = out.new; err = err.new })
        steps.old steps.new result }
{
    let status = match form_of(words) {
        None => SalvageStatus::Usage,
        Some(form) => serve(alloc, form, file, schema, out, err, steps),
    };
    report(err, status);
    status
}

/// Reads the schema text, and then goes through the file.
fn serve<F: PageSource, Q: ByteSource, O: ByteSink, E: ByteSink, L: Ledger>(
    alloc: Global,
    form: Form,
    file: &mut F,
    schema: &mut Q,
    out: &mut O,
    err: &mut E,
    steps: &mut Steps<L>,
) -> SalvageStatus
    ensures { Serves
        (record { file = F.PageSource; schema = Q.ByteSource; out = O.ByteSink; err = E.ByteSink })
        form
        (record { file = file.old; schema = schema.old; out = out.old; err = err.old })
        (record { file = file.new; schema = schema.new; out = out.new; err = err.new })
        steps.old steps.new result }
{
    // A schema text is that of one table.
    has_one_schema();
    texts_pass();
    match read_schema(alloc, schema) {
        Ok(table) => save_table(alloc, form, file, &table, out, err, steps),
        Err(stop) => SalvageStatus::from(stop),
    }
}

/// Goes through the file for the records of a table. What is lost is reported as long as the report takes it.
fn save_table<F: PageSource, O: ByteSink, E: ByteSink, L: Ledger>(
    alloc: Global,
    form: Form,
    file: &mut F,
    table: &Schema,
    out: &mut O,
    err: &mut E,
    steps: &mut Steps<L>,
) -> SalvageStatus
    ensures told { OfFile F.PageSource file.old (λ content. IsSalvage content table.now form
        (counts_of F.PageSource file.old) (counts_of F.PageSource file.new) (E.faults err.old) (E.faults err.new)
        (record { sink = O.written out.old; losses = E.written err.old })
        (record { sink = O.written out.new; losses = E.written err.new }) result) }
    ensures over { SavesOver F.PageSource O.ByteSink E.ByteSink file.old file.new out.old out.new err.old err.new
        steps.old steps.new result }
{
    let answer = salvage_regardless(alloc, file, table, form.kind, form.index, out, err, steps);
    status_of(answer)
}
