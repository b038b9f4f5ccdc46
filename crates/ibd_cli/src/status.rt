//! How a command ended: its exit status, and its line on the standard error.

ghost use Rattle.std.specs.Prelude.{◌≡◌};
ghost use Rattle.std.specs.Process.{exit_status};
ghost use Rattle.ibd_cli.specs.Answers.{status_of_schema, status_of_stop, status_of_dump};
ghost use Rattle.ibd_cli.specs.Answers.{status_of_cross, status_of_get, status_of_build, status_of_sample};
ghost use Rattle.ibd_cli.specs.Lines.{status_number};

use command_line::SchemaStop;
use cross_index::CrossStop;
use key_lookup::GetStop;
use page_source::{Fault, Stop};
use sample_table::SampleStop;
use schema_text::SchemaWhy;
use space_builder::{BuildStop, RowsWhy};
use sql_dump::DumpStop;
use std::process::ExitCode;

/// How a command ended.
#[derive(Clone, Copy, Debug, PartialEq, Eq)]
pub enum Status {
    /// All is done; what the command writes is on the standard output.
    Done,
    /// The words are none of the forms.
    Usage,
    /// The schema text is refused at this line.
    SchemaRefused { line: u32, why: SchemaWhy },
    /// The file breaks a rule.
    Broken(Fault),
    /// This line of the rows is refused.
    RowsRefused { line: u32, why: RowsWhy },
    /// The file, the schema text or the text of the rows couldn't be read.
    SourceFault,
    /// The standard output took no more.
    SinkFault,
    /// The tablespace couldn't be written.
    StoreFault,
    /// Memory ran out. Nothing was written to the standard output.
    Memory,
    /// The rows need more than 256 extents. Nothing was written.
    Full,
    /// The least key that only one side has is that of a row, counted from 1, which this index lacks.
    CrossMissing { index: u32, row: u64 },
    /// The least key that only one side has is that of an entry of this index, on this leaf page, which is of no row.
    CrossExtra { index: u32, page: u32 },
    /// The text is that of no key of the table. The file wasn't touched.
    KeyRefused,
    /// No row has the key, or one with the delete mark. Nothing was written.
    Absent,
}

impl Status {
    /// The exit status of the process.
    pub fn number(&self) -> u8
        ensures { result ≡ status_number self.now }
    {
        match self {
            Status::Done => 0,
            Status::Usage => 1,
            Status::SchemaRefused { .. } => 2,
            Status::Broken(_) => 3,
            Status::RowsRefused { .. } => 4,
            Status::SourceFault => 5,
            Status::SinkFault => 6,
            Status::StoreFault => 7,
            Status::Memory => 8,
            Status::Full => 9,
            Status::CrossMissing { .. } => 11,
            Status::CrossExtra { .. } => 12,
            Status::KeyRefused => 13,
            Status::Absent => 14,
        }
    }

    /// What `main` returns, so that the process ends with the status's number.
    pub fn exit_code(&self) -> ExitCode
        ensures { exit_status result ≡ status_number self.now }
    {
        ExitCode::from(self.number())
    }
}

impl From<SchemaStop> for Status {
    ghost from_gives = { λ stop status. status ≡ status_of_schema stop };

    fn from(stop: SchemaStop) -> Self {
        match stop {
            SchemaStop::Refused { line, why } => Status::SchemaRefused { line, why },
            SchemaStop::Source => Status::SourceFault,
            SchemaStop::Memory => Status::Memory,
        }
    }
}

impl From<Stop> for Status {
    ghost from_gives = { λ stop status. status ≡ status_of_stop stop };

    fn from(stop: Stop) -> Self {
        match stop {
            Stop::Broken(fault) => Status::Broken(fault),
            Stop::Source => Status::SourceFault,
            Stop::Memory => Status::Memory,
        }
    }
}

impl From<DumpStop> for Status {
    ghost from_gives = { λ stop status. status ≡ status_of_dump stop };

    fn from(stop: DumpStop) -> Self {
        match stop {
            DumpStop::Broken(fault) => Status::Broken(fault),
            DumpStop::Source => Status::SourceFault,
            DumpStop::Sink => Status::SinkFault,
            DumpStop::Memory => Status::Memory,
        }
    }
}

impl From<GetStop> for Status {
    ghost from_gives = { λ stop status. status ≡ status_of_get stop };

    fn from(stop: GetStop) -> Self {
        match stop {
            GetStop::Refused => Status::KeyRefused,
            GetStop::Absent => Status::Absent,
            GetStop::Broken(fault) => Status::Broken(fault),
            GetStop::Source => Status::SourceFault,
            GetStop::Sink => Status::SinkFault,
            GetStop::Memory => Status::Memory,
        }
    }
}

impl From<CrossStop> for Status {
    ghost from_gives = { λ stop status. status ≡ status_of_cross stop };

    fn from(stop: CrossStop) -> Self {
        match stop {
            CrossStop::Broken(fault) => Status::Broken(fault),
            CrossStop::Missing { index, row } => Status::CrossMissing { index, row },
            CrossStop::Extra { index, page } => Status::CrossExtra { index, page },
            CrossStop::Source => Status::SourceFault,
            CrossStop::Memory => Status::Memory,
        }
    }
}

impl From<BuildStop> for Status {
    ghost from_gives = { λ stop status. status ≡ status_of_build stop };

    fn from(stop: BuildStop) -> Self {
        match stop {
            BuildStop::RootPlace { line } => Status::SchemaRefused {
                line,
                why: SchemaWhy::Root,
            },
            BuildStop::RowsRefused { line, why } => Status::RowsRefused { line, why },
            BuildStop::Full => Status::Full,
            BuildStop::Source => Status::SourceFault,
            BuildStop::Store => Status::StoreFault,
            BuildStop::Memory => Status::Memory,
        }
    }
}

impl From<SampleStop> for Status {
    ghost from_gives = { λ stop status. status ≡ status_of_sample stop };

    fn from(stop: SampleStop) -> Self {
        match stop {
            SampleStop::Full => Status::Full,
            SampleStop::Memory => Status::Memory,
        }
    }
}
