//! The report of what is lost. Once it has failed it is left alone, and nothing more is put.

ghost use Rattle.std.specs.Prelude.{◌≡◌, length};
ghost use Rattle.page_source.specs.Calls.{Puts};
ghost use Rattle.salvage_model.specs.Losses.{unread_line, broken_line, row_losses};
ghost use Rattle.salvage_model.specs.Report.{numbers_line};
ghost use Rattle.table_salvage.specs.Heard.{Hears};

use itoa::Buffer;
use page_source::{ByteSink, Failed, Rule, put_pieces};
use row_salvage::{ColumnLosses, put_broken, put_row_losses, put_unread};
use salvage_model::Saved;
use schema_text::Schema;

/// Reports a page that couldn't be fetched.
pub(crate) fn report_unread<E: ByteSink>(losses: &mut E, failed: &mut bool, n: u32)
    ensures { Hears E.ByteSink losses.old losses.new failed.old failed.new (unread_line n) }
{
    if !*failed {
        *failed = put_unread(losses, n).is_err();
    }
}

/// Reports a page that is broken.
pub(crate) fn report_broken<E: ByteSink>(losses: &mut E, failed: &mut bool, n: u32, rule: Rule)
    ensures { Hears E.ByteSink losses.old losses.new failed.old failed.new (broken_line n rule) }
{
    if !*failed {
        *failed = put_broken(losses, n, rule).is_err();
    }
}

/// Reports each value of record `k` of page `n` that is lost.
pub(crate) fn report_row<E: ByteSink>(
    losses: &mut E,
    failed: &mut bool,
    schema: &Schema,
    n: u32,
    k: u32,
    lost: &ColumnLosses,
)
    requires { length lost.now ≡ length schema.now.columns }
    ensures { Hears E.ByteSink losses.old losses.new failed.old failed.new (row_losses schema.now n k lost.now) }
{
    if !*failed {
        *failed = put_row_losses(losses, schema, n, k, lost).is_err();
    }
}

/// Reports the numbers.
pub(crate) fn report_numbers<E: ByteSink>(losses: &mut E, failed: &mut bool, saved: Saved)
    ensures { Hears E.ByteSink losses.old losses.new failed.old failed.new (numbers_line saved) }
{
    if !*failed {
        *failed = put_numbers(losses, saved).is_err();
    }
}

/// Puts the line of the numbers.
fn put_numbers<E: ByteSink>(err: &mut E, saved: Saved) -> Result<(), Failed>
    ensures { Puts E.ByteSink err.old err.new (numbers_line saved) result }
{
    let mut rows = Buffer::new();
    let mut partial = Buffer::new();
    let mut leaves = Buffer::new();
    let mut lost = Buffer::new();
    let pieces = [
        b"rows=".as_slice(),
        rows.format(saved.rows).as_bytes(),
        b" partial=",
        partial.format(saved.partial).as_bytes(),
        b" leaves=",
        leaves.format(saved.leaves).as_bytes(),
        b" lost=",
        lost.format(saved.lost).as_bytes(),
        b"\n",
    ];
    put_pieces(err, &pieces)
}
