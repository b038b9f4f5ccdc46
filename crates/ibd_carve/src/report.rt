//! The line of a status on the standard error.

ghost use Rattle.std.specs.Prelude.{◌≤◌};
ghost use Rattle.page_source.specs.Calls.{Puts};
ghost use Rattle.command_line.specs.Causes.{Reports};
ghost use Rattle.ibd_carve.specs.Lines.{status_line};

use crate::status::CarveStatus;
use page_source::{ByteSink, Failed};

/// Writes the status's line. A fault of this sink changes nothing else.
pub fn report<E: ByteSink>(err: &mut E, status: CarveStatus)
    ensures text { Reports (E.written err.old) (E.written err.new) (E.faults err.old) (E.faults err.new)
        (status_line status) }
    ensures later { E.faults err.old ≤ E.faults err.new }
{
    let _ = put_status(err, status);
}

fn put_status<E: ByteSink>(err: &mut E, status: CarveStatus) -> Result<(), Failed>
    ensures { Puts E.ByteSink err.old err.new (status_line status) result }
{
    err.put(match status {
        CarveStatus::Done => b"",
        CarveStatus::Usage => b"usage\n",
        CarveStatus::SourceFault => b"source\n",
        CarveStatus::SinkFault => b"sink\n",
        CarveStatus::StoreFault => b"store\n",
        CarveStatus::Memory => b"memory\n",
        CarveStatus::Nothing => b"nothing\n",
    })
}
