//! The commands: those that read a file, of file_cases, and one module each for the others. A command that comes later
//! gets a module of its own, here or there, a variant of `Command`, and its arms in `read` and `run`.

mod build;
mod carve;
mod salvage;
mod sample;

pub use build::BuildCase;
use carve::CarveCase;
use case_files::error::LineError;
use case_files::named_files::NamedFiles;
use case_files::words::Words;
use file_cases::audit::AuditCase;
use file_cases::file::{FetchCase, FileCase};
use file_cases::get::GetCase;
use file_cases::page::PageCase;
use file_cases::report::Report;
use file_cases::row::{RowCase, RowText};
use file_cases::run::Task;
use file_cases::sweep::SweepCase;
use file_cases::value::ValueCase;
use file_cases::walk::WalkCase;
use salvage::SalvageCase;
use sample::SampleCase;
use std::alloc::Global;

/// What a line tries.
#[derive(Drop)]
pub enum Command<'a> {
    Check(FileCase<'a>),
    Dump(FileCase<'a>),
    Both(FileCase<'a>),
    Cross(FileCase<'a>),
    Salvage(SalvageCase<'a>),
    Get(GetCase<'a>),
    Build(BuildCase<'a>),
    Carve(CarveCase<'a>),
    Sample(SampleCase),
    Fetches(FetchCase<'a>),
    Audit(AuditCase<'a>),
    Walk(WalkCase<'a>),
    Page(PageCase<'a>),
    Sweep(SweepCase<'a>),
    Value(ValueCase<'a>),
    Row(RowCase<'a>),
}

impl<'a> Command<'a> {
    /// Reads what stands before the arrow.
    pub fn read(alloc: Global, what: &'a str) -> Result<Command<'a>, LineError> {
        let (word, rest) = what.split_once(' ').ok_or(LineError::Command)?;
        match word {
            "get" => Ok(Command::Get(GetCase::read(alloc, rest)?)),
            "build" => Ok(Command::Build(BuildCase::read(alloc, rest)?)),
            "value" => Ok(Command::Value(ValueCase::read(alloc, rest)?)),
            "line" => Ok(Command::Row(RowCase::read(alloc, RowText::Line, rest)?)),
            "key" => Ok(Command::Row(RowCase::read(alloc, RowText::Key, rest)?)),
            _ => Command::read_words(alloc, word, &mut Words::of(alloc, rest)?),
        }
    }

    /// Reads what is said in words alone.
    fn read_words(
        alloc: Global,
        word: &str,
        words: &mut Words<'a>,
    ) -> Result<Command<'a>, LineError> {
        match word {
            "check" => Ok(Command::Check(FileCase::read(alloc, words)?)),
            "dump" => Ok(Command::Dump(FileCase::read(alloc, words)?)),
            "both" => Ok(Command::Both(FileCase::read(alloc, words)?)),
            "cross" => Ok(Command::Cross(FileCase::read(alloc, words)?)),
            "salvage" => Ok(Command::Salvage(SalvageCase::read(alloc, words)?)),
            "carve_list" => Ok(Command::Carve(CarveCase::read_list(alloc, words)?)),
            "carve_take" => Ok(Command::Carve(CarveCase::read_take(alloc, words)?)),
            "sample" => Ok(Command::Sample(SampleCase::read(words)?)),
            "fetches" => Ok(Command::Fetches(FetchCase::read(alloc, words)?)),
            "audit" => Ok(Command::Audit(AuditCase::read(alloc, words)?)),
            "walk" => Ok(Command::Walk(WalkCase::read(alloc, words)?)),
            "page" => Ok(Command::Page(PageCase::read(alloc, words)?)),
            "sweep" => Ok(Command::Sweep(SweepCase::read(alloc, words)?)),
            _ => Err(LineError::Command),
        }
    }

    /// Runs the command, and compares with the answer.
    pub fn run(
        &self,
        alloc: Global,
        files: &NamedFiles,
        answer: &str,
        report: &mut Report,
    ) -> Result<(), LineError> {
        match self {
            Command::Check(case) => case.run(alloc, files, &[Task::Check], answer, report),
            Command::Dump(case) => case.run(alloc, files, &[Task::Dump], answer, report),
            Command::Both(case) => {
                case.run(alloc, files, &[Task::Check, Task::Dump], answer, report)
            }
            Command::Cross(case) => case.run(alloc, files, &[Task::Cross], answer, report),
            Command::Salvage(case) => case.run(alloc, files, answer, report),
            Command::Get(case) => case.run(alloc, files, answer, report),
            Command::Build(case) => case.run(alloc, files, answer, report),
            Command::Carve(case) => case.run(alloc, files, answer, report),
            Command::Sample(case) => case.run(alloc, answer, report),
            Command::Fetches(case) => case.run(alloc, files, answer, report),
            Command::Audit(case) => case.run(alloc, files, answer, report),
            Command::Walk(case) => case.run(alloc, files, answer, report),
            Command::Page(case) => case.run(alloc, files, answer, report),
            Command::Sweep(case) => case.run(alloc, files, answer, report),
            Command::Value(case) => case.run(alloc, files, answer, report),
            Command::Row(case) => case.run(alloc, files, answer, report),
        }
    }
}
