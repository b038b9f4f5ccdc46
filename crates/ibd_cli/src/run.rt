//! The whole program as one call over the objects that reach outside.

ghost use Rattle.page_source.specs.Objects.{IsFresh};
ghost use Rattle.ibd_cli.specs.Forms.{IsForm};
ghost use Rattle.ibd_cli.specs.Answers.{ServesFile};
ghost use Rattle.ibd_cli.specs.Run.{Serves};
ghost use Rattle.ibd_cli.specs.Program.{Runs, six, telling};

use crate::build::build_file;
use crate::check::check_file;
use crate::cross::cross_file;
use crate::dump::dump_file;
use crate::forms::{Form, Task, form_of, key_of};
use crate::get::get_row;
use crate::report::report;
use crate::sample::take_sample;
use crate::status::Status;
use command_line::{Words, read_schema};
use cross_index::laws::has_one_difference;
use key_lookup::laws::{look_up_has_one_answer, text_spells_one_key};
use page_source::{ByteSink, ByteSource, PageSource, PageStore, Steps};
use schema_text::Schema;
use schema_text::laws::{has_one_schema, texts_pass};
use std::alloc::Global;
use std::sync::ledger::Ledger;
use table_check::laws::{checks_are_validity, first_has_one_answer};

/// Does what the words ask for, and answers how it ended. The words are those of the command line
/// without the program's name; `file`, `schema` and `rows` are read, `out`, `err` and `target` written. `Runs` says of
/// each form of the words which objects are called, how they stand at the end, and which status it is.
pub fn run<
    F: PageSource,
    Q: ByteSource,
    R: ByteSource,
    O: ByteSink,
    E: ByteSink,
    T: PageStore,
    L: Ledger,
>(
    alloc: Global,
    words: &Words,
    file: &mut F,
    schema: &mut Q,
    rows: &mut R,
    out: &mut O,
    err: &mut E,
    target: &mut T,
    steps: &mut Steps<L>,
) -> Status
    requires fresh { IsForm words.now Form.Build → IsFresh (T.told target.old) }
    ensures { Runs (telling F.PageSource Q.ByteSource R.ByteSource O.ByteSink E.ByteSink T.PageStore) words.now
        (six file.old schema.old rows.old out.old err.old target.old)
        (six file.new schema.new rows.new out.new err.new target.new) steps.old steps.new result }
{
    let status = match form_of(words) {
        None => Status::Usage,
        Some(Form::Table(task)) => serve(alloc, task, key_of(words), file, schema, out, steps),
        Some(Form::Build) => build_file(alloc, schema, rows, out, target, steps),
        Some(Form::Sample(rows)) => take_sample(alloc, rows, out, steps),
    };
    report(err, status);
    status
}

/// Reads the schema text, and then does the task.
fn serve<F: PageSource, Q: ByteSource, O: ByteSink, L: Ledger>(
    alloc: Global,
    task: Task,
    key: &[u8],
    file: &mut F,
    schema: &mut Q,
    out: &mut O,
    steps: &mut Steps<L>,
) -> Status
    ensures { Serves F.PageSource Q.ByteSource O.ByteSink task key.now file.old file.new
        schema.old schema.new out.old out.new steps.old steps.new result }
{
    // A schema text is that of one table, a table's checks of a file have one answer, so has the comparison of its
    // indexes with its rows, and a text spells one key.
    has_one_schema();
    texts_pass();
    first_has_one_answer();
    checks_are_validity();
    has_one_difference();
    look_up_has_one_answer();
    text_spells_one_key();
    match read_schema(alloc, schema) {
        Ok(table) => serve_table(alloc, task, key, file, &table, out, steps),
        Err(stop) => Status::from(stop),
    }
}

fn serve_table<F: PageSource, O: ByteSink, L: Ledger>(
    alloc: Global,
    task: Task,
    key: &[u8],
    file: &mut F,
    table: &Schema,
    out: &mut O,
    steps: &mut Steps<L>,
) -> Status
    ensures { ServesFile F.PageSource O.ByteSink task key.now file.old file.new table.now out.old out.new
        steps.old steps.new result }
{
    match task {
        Task::Check => check_file(alloc, file, table, out, steps),
        Task::Dump => dump_file(alloc, file, table, out, steps),
        Task::Cross => cross_file(alloc, file, table, out, steps),
        Task::Get => get_row(alloc, file, table, key, out, steps),
    }
}
