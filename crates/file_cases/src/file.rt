//! The commands `check`, `dump`, `both`, `cross` and `fetches`: a file through all rules.

use crate::report::Report;
use crate::run::{Hitch, Ready, Task, hitch_at, numbers_of};
use case_files::error::LineError;
use case_files::named_files::{NamedFiles, copied};
use case_files::pages::CasePages;
use case_files::plan::{Plan, Trouble};
use case_files::text::{decode, put_number};
use case_files::words::{Range, Words};
use page_source::{ByteList, NoMemory};
use std::alloc::Global;

/// The most tries of a line.
const MOST_TRIES: u64 = 100_000;

/// `check BASE ITEM ..` or `dump BASE ITEM ..`, with both, `both BASE ITEM ..`, and `cross BASE ITEM ..`.
#[derive(Drop)]
pub struct FileCase<'a> {
    plan: Plan<'a>,
}

impl<'a> FileCase<'a> {
    pub fn read(alloc: Global, words: &mut Words<'a>) -> Result<FileCase<'a>, LineError> {
        let plan = Plan::read(alloc, words)?;
        words.end()?;
        Ok(FileCase { plan })
    }

    /// The case of this file.
    pub fn of(plan: Plan<'a>) -> FileCase<'a> {
        FileCase { plan }
    }

    /// What the line says of its file.
    pub fn plan(&self) -> &Plan<'a> {
        &self.plan
    }

    /// Runs the tasks, and compares.
    pub fn run(
        &self,
        alloc: Global,
        files: &NamedFiles,
        tasks: &[Task<'_>],
        answer: &str,
        report: &mut Report,
    ) -> Result<(), LineError> {
        let ready = Ready::new(alloc, files, &self.plan)?;
        let wanted = decode(alloc, answer)?;
        for task in tasks {
            self.run_task(alloc, &ready, *task, wanted.bytes(), report)?;
        }
        Ok(())
    }

    /// Runs the task once, or at each number of what goes wrong.
    fn run_task(
        &self,
        alloc: Global,
        ready: &Ready<'_>,
        task: Task<'_>,
        wanted: &[u8],
        report: &mut Report,
    ) -> Result<(), LineError> {
        let trouble = self.plan.trouble;
        let whole = match trouble {
            Trouble::None => ByteList::new(alloc),
            _ => ready.run(alloc, task, Hitch::None)?.written,
        };
        let numbers = tries_of(trouble)?;
        for number in numbers.first..numbers.last.saturating_add(1) {
            let outcome = ready.run(alloc, task, hitch_at(trouble, number))?;
            let came = outcome.said_as(alloc, wanted, whole.bytes())?;
            let which = which_of(alloc, task.which(), trouble, number)?;
            report.compare(which.bytes(), wanted, came.bytes())?;
        }
        Ok(())
    }
}

/// The numbers of a line's tries.
pub fn tries_of(trouble: Trouble<'_>) -> Result<Range, LineError> {
    let numbers = numbers_of(trouble);
    if numbers.last.saturating_sub(numbers.first) > MOST_TRIES {
        return Err(LineError::Number);
    }
    Ok(numbers)
}

/// Which of a line's tries it is, behind the words for what is run.
pub fn which_of(
    alloc: Global,
    task: &[u8],
    trouble: Trouble<'_>,
    number: u64,
) -> Result<ByteList, LineError> {
    let mut which = copied(alloc, task)?;
    if !matches!(trouble, Trouble::None) {
        which.extend(b" at ")?;
        put_number(&mut which, number)?;
    }
    Ok(which)
}

/// `fetches check BASE ITEM ..`: which pages are fetched, in order.
#[derive(Drop)]
pub struct FetchCase<'a> {
    task: Task<'static>,
    plan: Plan<'a>,
}

impl<'a> FetchCase<'a> {
    pub fn read(alloc: Global, words: &mut Words<'a>) -> Result<FetchCase<'a>, LineError> {
        let task = Task::read(words.next()?)?;
        let plan = Plan::read(alloc, words)?;
        words.end()?;
        Ok(FetchCase { task, plan })
    }

    pub fn run(
        &self,
        alloc: Global,
        files: &NamedFiles,
        answer: &str,
        report: &mut Report,
    ) -> Result<(), LineError> {
        let came = fetched(alloc, files, &self.plan, self.task, b" ")?;
        report.compare(b"", answer.as_bytes(), came.bytes())
    }
}

/// The numbers of the pages that a task fetches, in order, with these bytes between them.
pub fn fetched(
    alloc: Global,
    files: &NamedFiles,
    plan: &Plan<'_>,
    task: Task<'_>,
    between: &[u8],
) -> Result<ByteList, LineError> {
    let ready = Ready::new(alloc, files, plan)?;
    let file = ready.fetches(alloc, task)?;
    Ok(joined(alloc, file.fetched(), between)?)
}

/// These numbers, with these bytes between them.
fn joined(alloc: Global, numbers: &[u32], between: &[u8]) -> Result<ByteList, NoMemory> {
    let mut list = ByteList::new(alloc);
    for number in numbers {
        if !list.bytes().is_empty() {
            list.extend(between)?;
        }
        put_number(&mut list, u64::from(*number))?;
    }
    Ok(list)
}
