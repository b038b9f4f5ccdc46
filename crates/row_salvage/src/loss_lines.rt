//! The lines that name what was lost.

ghost use Rattle.std.specs.Prelude.{◌≡◌, length};
ghost use Rattle.page_source.specs.Calls.{Puts};
ghost use Rattle.salvage_model.specs.Losses.{unread_line, broken_line, value_line, loss_line, row_losses};

use crate::row_check::ColumnLosses;
use itoa::Buffer;
use page_source::{ByteSink, Failed, Rule, put_pieces};
use salvage_model::Loss;
use schema_text::{Column, Schema};

/// Puts the line of a page that couldn't be fetched.
pub fn put_unread<E: ByteSink>(err: &mut E, n: u32) -> Result<(), Failed>
    ensures { Puts E.ByteSink err.old err.new (unread_line n) result }
{
    let mut page = Buffer::new();
    put_pieces(
        err,
        &[b"page ".as_slice(), page.format(n).as_bytes(), b" unread\n"],
    )
}

/// Puts the line of a page that is broken.
pub fn put_broken<E: ByteSink>(err: &mut E, n: u32, rule: Rule) -> Result<(), Failed>
    ensures { Puts E.ByteSink err.old err.new (broken_line n rule) result }
{
    let mut page = Buffer::new();
    let mut number = Buffer::new();
    let pieces = [
        b"page ".as_slice(),
        page.format(n).as_bytes(),
        b" broken ",
        number.format(rule.number()).as_bytes(),
        b" ",
        rule.name().as_bytes(),
        b"\n",
    ];
    put_pieces(err, &pieces)
}

/// Puts the line of a value that is lost: that of a column of record `k` of page `n`.
fn put_value_loss<E: ByteSink>(
    err: &mut E,
    n: u32,
    k: u32,
    column: &Column,
    loss: Loss,
) -> Result<(), Failed>
    ensures { Puts E.ByteSink err.old err.new (value_line n k column.now loss) result }
{
    let mut page = Buffer::new();
    let mut row = Buffer::new();
    let pieces = [
        b"page ".as_slice(),
        page.format(n).as_bytes(),
        b" row ",
        row.format(k).as_bytes(),
        b" column ",
        column.name.bytes(),
    ];
    put_pieces(err, &pieces)?;
    put_loss(err, loss)
}

/// Puts why a value is lost, and the page that this is about.
fn put_loss<E: ByteSink>(err: &mut E, loss: Loss) -> Result<(), Failed>
    ensures { Puts E.ByteSink err.old err.new (loss_line loss) result }
{
    let mut page = Buffer::new();
    let mut number = Buffer::new();
    match loss {
        Loss::Broken(fault) => {
            let pieces = [
                b" broken ".as_slice(),
                number.format(fault.rule.number()).as_bytes(),
                b" ",
                fault.rule.name().as_bytes(),
                b" page ",
                page.format(fault.page).as_bytes(),
                b"\n",
            ];
            put_pieces(err, &pieces)
        }
        Loss::Unread(n) => put_pieces(
            err,
            &[
                b" unread page ".as_slice(),
                page.format(n).as_bytes(),
                b"\n",
            ],
        ),
    }
}

/// Puts a line for each value of record `k` of page `n` that is lost, in the order of the table.
pub fn put_row_losses<E: ByteSink>(
    err: &mut E,
    schema: &Schema,
    n: u32,
    k: u32,
    losses: &ColumnLosses,
) -> Result<(), Failed>
    requires { length losses.now ≡ length schema.now.columns }
    ensures { Puts E.ByteSink err.old err.new (row_losses schema.now n k losses.now) result }
{
    for c in 0..schema.columns().len() {
        if let Some(loss) = losses.items()[c] {
            put_value_loss(err, n, k, &schema.columns()[c], loss)?;
        }
    }
    Ok(())
}
