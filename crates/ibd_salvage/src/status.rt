//! How a salvage ended: its exit status, and its line on the standard error.

ghost use Rattle.std.specs.Prelude.{◌≡◌, ◌≢◌, Err};
ghost use Rattle.salvage_model.specs.declared.stop.SalvageStop.{SalvageStop};
ghost use Rattle.ibd_salvage.specs.Ends.{status_of_schema, Ends};
ghost use Rattle.ibd_salvage.specs.Lines.{status_number};

use command_line::SchemaStop;
use page_source::Fault;
use salvage_model::{SalvageStop, Saved};
use schema_text::SchemaWhy;

/// How a salvage ended.
#[derive(Clone, Copy, Debug, PartialEq, Eq)]
pub enum SalvageStatus {
    /// Nothing was lost, and there was a leaf.
    Done,
    /// The words are none of the forms.
    Usage,
    /// The schema text is refused at this line. The file wasn't touched.
    SchemaRefused { line: u32, why: SchemaWhy },
    /// A page isn't any more what it was when it was checked.
    Changed(Fault),
    /// The file or the schema text couldn't be read.
    SourceFault,
    /// The standard output took no more.
    SinkFault,
    /// Memory ran out. Nothing was written to the standard output.
    Memory,
    /// Something was lost, or there was no leaf.
    Lost,
    /// No index id was given, and the root's page tells none. Nothing was written.
    RootLost,
}

impl SalvageStatus {
    /// The exit status of the process.
    pub fn number(&self) -> u8
        ensures { result ≡ status_number self.now }
    {
        match self {
            SalvageStatus::Done => 0,
            SalvageStatus::Usage => 1,
            SalvageStatus::SchemaRefused { .. } => 2,
            SalvageStatus::Changed(_) => 3,
            SalvageStatus::SourceFault => 5,
            SalvageStatus::SinkFault => 6,
            SalvageStatus::Memory => 8,
            SalvageStatus::Lost => 15,
            SalvageStatus::RootLost => 16,
        }
    }
}

impl From<SchemaStop> for SalvageStatus {
    ghost from_gives = { λ stop status. status ≡ status_of_schema stop };

    fn from(stop: SchemaStop) -> Self {
        match stop {
            SchemaStop::Refused { line, why } => SalvageStatus::SchemaRefused { line, why },
            SchemaStop::Source => SalvageStatus::SourceFault,
            SchemaStop::Memory => SalvageStatus::Memory,
        }
    }
}

/// The status of a salvage that answered this. `Losses` never comes from one that a failure of its report doesn't end.
pub(crate) fn status_of(answer: Result<Saved, SalvageStop>) -> SalvageStatus
    requires { answer ≢ Err SalvageStop.Losses }
    ensures { Ends answer result }
{
    match answer {
        Ok(saved) if saved.is_complete() => SalvageStatus::Done,
        Ok(_) => SalvageStatus::Lost,
        Err(SalvageStop::Root) => SalvageStatus::RootLost,
        Err(SalvageStop::Source) => SalvageStatus::SourceFault,
        Err(SalvageStop::Sink) => SalvageStatus::SinkFault,
        Err(SalvageStop::Losses) => unreachable!(),
        Err(SalvageStop::Memory) => SalvageStatus::Memory,
        Err(SalvageStop::Changed(fault)) => SalvageStatus::Changed(fault),
    }
}
