//! The line of a status on the standard error.

ghost use Rattle.std.specs.Prelude.{◌≡◌, ◌≤◌};
ghost use Rattle.page_source.specs.Calls.{Puts};
ghost use Rattle.command_line.specs.Causes.{Reports};
ghost use Rattle.ibd_cli.specs.Lines.{status_line, difference_line, rows_why_word};

use crate::status::Status;
use command_line::{put_fault, put_refusal, why_name};
use itoa::Buffer;
use page_source::{ByteSink, Failed, put_pieces};
use space_builder::RowsWhy;

/// Writes the status's line. A fault of this sink changes nothing else.
pub fn report<E: ByteSink>(err: &mut E, status: Status)
    ensures text { Reports (E.written err.old) (E.written err.new) (E.faults err.old) (E.faults err.new)
        (status_line status) }
    ensures later { E.faults err.old ≤ E.faults err.new }
{
    let _ = put_status(err, status);
}

fn put_status<E: ByteSink>(err: &mut E, status: Status) -> Result<(), Failed>
    ensures { Puts E.ByteSink err.old err.new (status_line status) result }
{
    match status {
        Status::Done => err.put(b""),
        Status::Usage => err.put(b"usage\n"),
        Status::SchemaRefused { line, why } => {
            put_refusal(err, "schema line ", line, why_name(why))
        }
        Status::Broken(fault) => put_fault(err, fault),
        Status::RowsRefused { line, why } => {
            put_refusal(err, "rows line ", line, rows_why_name(why))
        }
        Status::SourceFault => err.put(b"source\n"),
        Status::SinkFault => err.put(b"sink\n"),
        Status::StoreFault => err.put(b"store\n"),
        Status::Memory => err.put(b"memory\n"),
        Status::Full => err.put(b"full\n"),
        Status::CrossMissing { index, row } => put_difference(err, index, " missing row ", row),
        Status::CrossExtra { index, page } => {
            put_difference(err, index, " extra page ", u64::from(page))
        }
        Status::KeyRefused => err.put(b"key\n"),
        Status::Absent => err.put(b"absent\n"),
    }
}

fn put_difference<E: ByteSink>(
    err: &mut E,
    index: u32,
    side: &str,
    place: u64,
) -> Result<(), Failed>
    ensures { Puts E.ByteSink err.old err.new (difference_line index side.now place) result }
{
    let mut indexes = Buffer::new();
    let mut places = Buffer::new();
    let pieces = [
        b"cross index ".as_slice(),
        indexes.format(index).as_bytes(),
        side.as_bytes(),
        places.format(place).as_bytes(),
        b"\n",
    ];
    put_pieces(err, &pieces)
}

fn rows_why_name(why: RowsWhy) -> &'static str
    ensures { result.now ≡ rows_why_word why }
{
    match why {
        RowsWhy::Long => "long",
        RowsWhy::Input => "input",
        RowsWhy::Line => "line",
        RowsWhy::Order => "order",
        RowsWhy::Big => "big",
    }
}
