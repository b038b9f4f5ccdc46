//! The made table is built, checked and dumped.

ghost use Rattle.std.specs.Prelude.{◌≡◌, ◌≤◌, IfOk};
ghost use Rattle.table_check.specs.First.{IsChecked};
ghost use Rattle.row_text.specs.Line.{text_of};
ghost use Rattle.space_builder.specs.layout.Layout.{layout_file};
ghost use Rattle.sample_table.specs.Sample.{sample_table, sample_rows, Samples};
ghost use Rattle.sample_table.specs.Answers.{BuildsSample, IsSampleFile};

use crate::made::{Sample, SampleStop};
use crate::objects::{GrowingSink, GrowingStore, LineText, WholePages};
use crate::text::{schema_of, text_of};
use fil_frame::crc32c;
use page_source::{ByteList, NoMemory, Steps, Stop};
use row_text::laws::lines_are_unique;
use schema_text::Schema;
use space_builder::laws::good_texts_build_a_valid_tablespace;
use space_builder::{BuildStop, build};
use sql_dump::laws::sound_files_have_one_dump;
use sql_dump::{DumpStop, dump};
use std::alloc::Global;
use std::sync::ledger::Ledger;
use table_check::laws::{checks_are_validity, first_has_one_answer};
use table_check::{Checked, check};

/// The file of so many rows.
fn built<L: Ledger>(
    alloc: Global,
    schema: &Schema,
    rows: u32,
    steps: &mut Steps<L>,
) -> Result<WholePages, SampleStop>
    requires table { schema.now ≡ sample_table }
    requires count { rows ≤ 200000 }
    ensures { BuildsSample rows result }
{
    lines_are_unique();
    good_texts_build_a_valid_tablespace();
    let mut lines = LineText::new(alloc, text_of(alloc, schema, rows)?)?;
    let mut store = GrowingStore::new(alloc);
    match build(alloc, &mut lines, schema, &mut store, steps) {
        Ok(_) => Ok(store.into_pages()?),
        Err(BuildStop::Full) => Err(SampleStop::Full),
        Err(BuildStop::Store | BuildStop::Memory) => Err(SampleStop::Memory),
        Err(BuildStop::RootPlace { .. }) => unreachable!(),
        Err(BuildStop::RowsRefused { .. }) => unreachable!(),
        Err(BuildStop::Source) => unreachable!(),
    }
}

/// The numbers of the file of so many rows.
fn checked<L: Ledger>(
    alloc: Global,
    pages: &mut WholePages,
    schema: &Schema,
    rows: u32,
    steps: &mut Steps<L>,
) -> Result<Checked, NoMemory>
    requires table { schema.now ≡ sample_table }
    requires file { IsSampleFile (sample_rows rows) pages.old }
    ensures file { IsSampleFile (sample_rows rows) pages.new }
    ensures numbers { IfOk result (λ checked.
        IsChecked (layout_file sample_table (sample_rows rows)) sample_table checked) }
{
    match check(alloc, pages, schema, steps) {
        Ok(checked) => Ok(checked),
        Err(Stop::Memory) => Err(NoMemory),
        Err(Stop::Broken(_)) => unreachable!(),
        Err(Stop::Source) => unreachable!(),
    }
}

/// The dump of the file of so many rows.
fn dumped<L: Ledger>(
    alloc: Global,
    pages: &mut WholePages,
    schema: &Schema,
    rows: u32,
    steps: &mut Steps<L>,
) -> Result<ByteList, NoMemory>
    requires table { schema.now ≡ sample_table }
    requires file { IsSampleFile (sample_rows rows) pages.old }
    ensures { IfOk result (λ text. text ≡ text_of sample_table (sample_rows rows)) }
{
    checks_are_validity();
    first_has_one_answer();
    sound_files_have_one_dump();
    let mut text = GrowingSink::new(alloc);
    match dump(alloc, pages, schema, &mut text, steps) {
        Ok(_) => Ok(text.bytes),
        Err(DumpStop::Sink | DumpStop::Memory) => Err(NoMemory),
        Err(DumpStop::Broken(_)) => unreachable!(),
        Err(DumpStop::Source) => unreachable!(),
    }
}

/// Builds the made table of so many rows in memory, checks the file, dumps it, and tells the numbers.
pub fn sample<L: Ledger>(
    alloc: Global,
    rows: u32,
    steps: &mut Steps<L>,
) -> Result<Sample, SampleStop>
    requires count { rows ≤ 200000 }
    ensures { Samples rows result }
{
    let schema = schema_of(alloc)?;
    let mut pages = built(alloc, &schema, rows, steps)?;
    let checked = checked(alloc, &mut pages, &schema, rows, steps)?;
    let text = dumped(alloc, &mut pages, &schema, rows, steps)?;
    Ok(Sample {
        checked,
        bytes: text.bytes().len() as u64,
        sum: crc32c(text.bytes()),
    })
}
