//! A check or a dump of a case's file.

ghost use Rattle.std.specs.Prelude.{◌≡◌, ◌<◌};

use crate::outcome::{End, Outcome, put_checked, put_crossed};
use case_files::edited_pages::EditedPages;
use case_files::error::LineError;
use case_files::named_files::{Base, NamedFiles, edited};
use case_files::pages::{CasePages, Image};
use case_files::plan::{Plan, Trouble};
use case_files::words::Range;
use cross_index::cross;
use key_lookup::get;
use page_source::{ByteList, Fails, MemorySink, NoMemory, PAGE_SIZE, Steps, Stop};
use schema_text::Schema;
use sql_dump::dump;
use std::alloc::Global;
use std::marker::Brand;
use std::sync::ledger::{Blank, Ledger};
use table_check::{Checked, check};

/// The room of a sink of which a line says nothing.
const ROOM: u64 = 16_777_216;

/// What is run.
#[derive(Clone, Copy)]
pub enum Task<'a> {
    Check,
    Dump,
    /// The indexes are compared with the rows.
    Cross,
    /// The row with this key is looked up.
    Get(&'a [u8]),
}

impl Task<'static> {
    /// `check` or `dump`.
    pub fn read(word: &str) -> Result<Task<'static>, LineError> {
        match word {
            "check" => Ok(Task::Check),
            "dump" => Ok(Task::Dump),
            _ => Err(LineError::Word),
        }
    }
}

impl Task<'_> {
    /// The words for a task, which stand behind what came of it.
    pub fn which(self) -> &'static [u8] {
        match self {
            Task::Check => b" of check",
            Task::Dump => b" of dump",
            Task::Cross => b" of cross",
            Task::Get(_) => b" of get",
        }
    }
}

/// What goes wrong in one run.
#[derive(Clone, Copy)]
pub enum Hitch {
    None,
    /// This call of the file fails.
    File(u64),
    /// This call of the sink fails.
    Sink(u64),
    /// This call of the sink for what is lost fails.
    Losses(u64),
    /// The sink has room for so many bytes.
    Room(u64),
    /// From this call on the file is the other one.
    Turns(u64),
}

/// A file that stands ready, and the schema of its table.
#[derive(Drop)]
pub struct Ready<'a> {
    base: &'a Base,
    over: EditedPages,
    pages: u32,
    schema: &'a [u8],
    later: Option<&'a Base>,
}

/// How many whole pages a file of so many bytes has.
fn page_count(bytes: u64) -> u32 {
    u32::try_from(bytes / PAGE_SIZE as u64).unwrap_or(u32::MAX)
}

impl<'a> Ready<'a> {
    /// The file of the plan.
    pub fn new(
        alloc: Global,
        files: &'a NamedFiles,
        plan: &Plan<'a>,
    ) -> Result<Ready<'a>, LineError> {
        let base = files.file(plan.base)?;
        let later = match plan.trouble {
            Trouble::Turns(name, _) => Some(files.file(name)?),
            _ => None,
        };
        Ok(Ready {
            base,
            over: edited(alloc, &base.pages, plan)?,
            pages: page_count(base.resized(plan.size)),
            schema: files.schema_of(plan)?,
            later,
        })
    }

    /// The file with these pages over its own.
    pub fn of(base: &'a Base, over: EditedPages, schema: &'a [u8]) -> Ready<'a> {
        Ready {
            base,
            over,
            pages: page_count(base.size),
            schema,
            later: None,
        }
    }

    /// The pages of the file.
    pub fn image(&self) -> Image<'_> {
        Image {
            over: &self.over,
            under: &self.base.pages,
            pages: self.pages,
        }
    }

    /// The edited pages of the file.
    pub fn over(&mut self) -> &mut EditedPages {
        &mut self.over
    }

    /// The pages that lie under the edited ones.
    pub fn under(&self) -> &'a EditedPages {
        &self.base.pages
    }

    /// How many whole pages the file has.
    pub fn pages(&self) -> u32 {
        self.pages
    }

    /// The schema text of its table.
    pub fn schema(&self) -> &'a [u8] {
        self.schema
    }

    /// The file of one run.
    pub fn file(&self, alloc: Global, hitch: Hitch) -> CasePages<'_> {
        let mut file = CasePages::new(alloc, self.image());
        match (hitch, self.later) {
            (Hitch::File(call), _) => file.fail_at(call),
            (Hitch::Turns(call), Some(base)) => {
                file.turn_at(
                    call,
                    Image {
                        over: &base.pages,
                        under: &base.pages,
                        pages: page_count(base.size),
                    },
                );
            }
            _ => {}
        }
        file
    }

    /// How the task ends, and what it writes.
    pub fn run(&self, alloc: Global, task: Task<'_>, hitch: Hitch) -> Result<Outcome, LineError> {
        let mut file = self.file(alloc, hitch);
        self.run_over(alloc, task, hitch, &mut file)
    }

    /// The numbers of the pages that are fetched, in order.
    pub fn fetches(&self, alloc: Global, task: Task<'_>) -> Result<CasePages<'_>, LineError> {
        let mut file = self.file(alloc, Hitch::None);
        self.run_over(alloc, task, Hitch::None, &mut file)?;
        Ok(file)
    }

    /// The numbers of the file as it is, where it is sound.
    pub fn checked(&self, alloc: Global) -> Result<Checked, End> {
        let schema = Schema::read(alloc, self.schema)?;
        let mut file = self.file(alloc, Hitch::None);
        Ok(check_file::<Brand>(alloc, &mut file, &schema, Blank::new(1))?)
    }

    fn run_over(
        &self,
        alloc: Global,
        task: Task<'_>,
        hitch: Hitch,
        file: &mut CasePages<'_>,
    ) -> Result<Outcome, LineError> {
        let schema = match Schema::read(alloc, self.schema) {
            Ok(schema) => schema,
            Err(error) => return Ok(Outcome::stopped(alloc, End::from(error))),
        };
        match task {
            Task::Check => {
                let checked = check_file::<Brand>(alloc, file, &schema, Blank::new(1));
                Ok(checked_outcome(alloc, checked)?)
            }
            Task::Cross => Ok(cross_file::<Brand>(alloc, file, &schema, Blank::new(1))?),
            Task::Dump => {
                let mut sink = sink_of(alloc, hitch)?;
                let end = dump_file::<Brand>(alloc, file, &schema, &mut sink, Blank::new(1));
                written_of(alloc, end, &sink)
            }
            Task::Get(key) => {
                let mut sink = sink_of(alloc, hitch)?;
                let end = get_row::<Brand>(alloc, file, &schema, key, &mut sink, Blank::new(1));
                written_of(alloc, end, &sink)
            }
        }
    }
}

/// How a command ended, with what the sink was given.
pub fn written_of(
    alloc: Global,
    end: Result<(), End>,
    sink: &MemorySink,
) -> Result<Outcome, LineError> {
    let mut written = ByteList::new(alloc);
    written.extend(sink.bytes())?;
    Ok(Outcome { end, written })
}

/// A check of the file.
fn check_file<L: Ledger>(
    alloc: Global,
    file: &mut CasePages<'_>,
    schema: &Schema,
    blank: Blank,
) -> Result<Checked, Stop>
    requires name { blank.name ≡ L.name }
    requires parts { blank.parts ≡ L.parts }
    requires shared { 0 < blank.parts }
{
    check(alloc, file, schema, &mut Steps::<L>::new(blank))
}

/// How a check ended, with its numbers as a text.
fn checked_outcome(alloc: Global, checked: Result<Checked, Stop>) -> Result<Outcome, NoMemory> {
    match checked {
        Ok(checked) => {
            let mut written = ByteList::new(alloc);
            put_checked(&mut written, &checked)?;
            Ok(Outcome {
                end: Ok(()),
                written,
            })
        }
        Err(stop) => Ok(Outcome::stopped(alloc, End::from(stop))),
    }
}

/// A comparison of the file's indexes with its rows, and its numbers.
fn cross_file<L: Ledger>(
    alloc: Global,
    file: &mut CasePages<'_>,
    schema: &Schema,
    blank: Blank,
) -> Result<Outcome, NoMemory>
    requires name { blank.name ≡ L.name }
    requires parts { blank.parts ≡ L.parts }
    requires shared { 0 < blank.parts }
{
    match cross(alloc, file, schema, &mut Steps::<L>::new(blank)) {
        Ok(crossed) => {
            let mut written = ByteList::new(alloc);
            put_crossed(&mut written, &crossed)?;
            Ok(Outcome {
                end: Ok(()),
                written,
            })
        }
        Err(stop) => Ok(Outcome::stopped(alloc, End::from(stop))),
    }
}

/// A look-up of the row with this key, into the sink.
fn get_row<L: Ledger>(
    alloc: Global,
    file: &mut CasePages<'_>,
    schema: &Schema,
    key: &[u8],
    sink: &mut MemorySink,
    blank: Blank,
) -> Result<(), End>
    requires name { blank.name ≡ L.name }
    requires parts { blank.parts ≡ L.parts }
    requires shared { 0 < blank.parts }
{
    get(alloc, file, schema, key, sink, &mut Steps::<L>::new(blank))?;
    Ok(())
}

/// A dump of the file into the sink.
fn dump_file<L: Ledger>(
    alloc: Global,
    file: &mut CasePages<'_>,
    schema: &Schema,
    sink: &mut MemorySink,
    blank: Blank,
) -> Result<(), End>
    requires name { blank.name ≡ L.name }
    requires parts { blank.parts ≡ L.parts }
    requires shared { 0 < blank.parts }
{
    dump(alloc, file, schema, sink, &mut Steps::<L>::new(blank))?;
    Ok(())
}

/// The sink of one run.
pub fn sink_of(alloc: Global, hitch: Hitch) -> Result<MemorySink, NoMemory> {
    let room = match hitch {
        Hitch::Room(room) => room,
        _ => ROOM,
    };
    let fails = match hitch {
        Hitch::Sink(call) => Fails::of(alloc, &[call])?,
        _ => Fails::of(alloc, &[])?,
    };
    MemorySink::new(alloc, room as usize, fails)
}

/// The sink of one run for what is lost.
pub fn losses_of(alloc: Global, hitch: Hitch) -> Result<MemorySink, NoMemory> {
    let fails = match hitch {
        Hitch::Losses(call) => Fails::of(alloc, &[call])?,
        _ => Fails::of(alloc, &[])?,
    };
    MemorySink::new(alloc, ROOM as usize, fails)
}

/// The numbers of what goes wrong, and what it is at each of them.
pub fn numbers_of(trouble: Trouble<'_>) -> Range {
    match trouble {
        Trouble::None => Range { first: 0, last: 0 },
        Trouble::File(range)
        | Trouble::Sink(range)
        | Trouble::Losses(range)
        | Trouble::Room(range)
        | Trouble::Turns(_, range) => range,
    }
}

/// What goes wrong at this number.
pub fn hitch_at(trouble: Trouble<'_>, number: u64) -> Hitch {
    match trouble {
        Trouble::None => Hitch::None,
        Trouble::File(_) => Hitch::File(number),
        Trouble::Sink(_) => Hitch::Sink(number),
        Trouble::Losses(_) => Hitch::Losses(number),
        Trouble::Room(_) => Hitch::Room(number),
        Trouble::Turns(_, _) => Hitch::Turns(number),
    }
}
