//! The line of a status on the standard error.

ghost use Rattle.std.specs.Prelude.{◌≤◌};
ghost use Rattle.page_source.specs.Calls.{Puts};
ghost use Rattle.command_line.specs.Causes.{Reports};
ghost use Rattle.ibd_salvage.specs.Lines.{status_line};

use crate::status::SalvageStatus;
use command_line::{put_fault, put_refusal, why_name};
use page_source::{ByteSink, Failed};

/// Writes the status's line. A fault of this sink changes nothing else.
pub fn report<E: ByteSink>(err: &mut E, status: SalvageStatus)
    ensures text { Reports (E.written err.old) (E.written err.new) (E.faults err.old) (E.faults err.new)
        (status_line status) }
    ensures later { E.faults err.old ≤ E.faults err.new }
{
    let _ = put_status(err, status);
}

fn put_status<E: ByteSink>(err: &mut E, status: SalvageStatus) -> Result<(), Failed>
    ensures { Puts E.ByteSink err.old err.new (status_line status) result }
{
    match status {
        SalvageStatus::Done | SalvageStatus::Lost => err.put(b""),
        SalvageStatus::Usage => err.put(b"usage\n"),
        SalvageStatus::SchemaRefused { line, why } => {
            put_refusal(err, "schema line ", line, why_name(why))
        },
        SalvageStatus::Changed(fault) => put_fault(err, fault),
        SalvageStatus::SourceFault => err.put(b"source\n"),
        SalvageStatus::SinkFault => err.put(b"sink\n"),
        SalvageStatus::Memory => err.put(b"memory\n"),
        SalvageStatus::RootLost => err.put(b"root\n"),
    }
}
