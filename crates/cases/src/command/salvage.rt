//! The command `salvage`: the records of a kind out of a file that may be broken anywhere.

ghost use Rattle.std.specs.Prelude.{◌≡◌, ◌<◌};

use case_files::error::LineError;
use case_files::named_files::{NamedFiles, copied};
use case_files::pages::CasePages;
use case_files::plan::Plan;
use case_files::text::decode;
use case_files::unread::Unread;
use case_files::words::Words;
use fil_frame::crc32c;
use file_cases::file::{tries_of, which_of};
use file_cases::outcome::{End, put_length, put_saved};
use file_cases::report::Report;
use file_cases::run::{Hitch, Ready, hitch_at, losses_of, sink_of};
use page_source::{ByteList, MemorySink, NoMemory, Steps};
use salvage_model::{RecordKind, Saved};
use schema_text::Schema;
use std::alloc::Global;
use std::marker::Brand;
use std::sync::ledger::{Blank, Ledger};
use table_salvage::salvage;

/// `salvage KIND [id N] [unread PAGES] BASE ITEM ..`.
#[derive(Drop)]
pub struct SalvageCase<'a> {
    kind: RecordKind,
    index: Option<u64>,
    unread: Unread,
    plan: Plan<'a>,
}

/// How a salvage ended, and what it wrote.
#[derive(Drop)]
struct Salvaged {
    end: Result<Saved, End>,
    text: ByteList,
    losses: ByteList,
}

impl<'a> SalvageCase<'a> {
    pub fn read(alloc: Global, words: &mut Words<'a>) -> Result<SalvageCase<'a>, LineError> {
        let kind = read_kind(words)?;
        let index = if words.skip("id") {
            Some(words.number()?)
        } else {
            None
        };
        let unread = if words.skip("unread") {
            Unread::read(alloc, words.next()?)?
        } else {
            Unread::none(alloc)
        };
        let plan = Plan::read(alloc, words)?;
        words.end()?;
        Ok(SalvageCase {
            kind,
            index,
            unread,
            plan,
        })
    }

    /// Salvages once, or at each number of what goes wrong, and compares.
    pub fn run(
        &self,
        alloc: Global,
        files: &NamedFiles,
        answer: &str,
        report: &mut Report,
    ) -> Result<(), LineError> {
        let ready = Ready::new(alloc, files, &self.plan)?;
        let whole = self.salvaged(alloc, &ready, Hitch::None)?;
        let wanted = decode(alloc, answer)?;
        let numbers = tries_of(self.plan.trouble)?;
        for number in numbers.first..numbers.last.saturating_add(1) {
            self.run_at(alloc, &ready, number, wanted.bytes(), &whole, report)?;
        }
        Ok(())
    }

    /// Salvages where what has this number goes wrong, and compares.
    fn run_at(
        &self,
        alloc: Global,
        ready: &Ready<'_>,
        number: u64,
        wanted: &[u8],
        whole: &Salvaged,
        report: &mut Report,
    ) -> Result<(), LineError> {
        let trouble = self.plan.trouble;
        let salvaged = self.salvaged(alloc, ready, hitch_at(trouble, number))?;
        let came = salvaged.said_as(alloc, wanted, whole)?;
        let which = which_of(alloc, b" of salvage", trouble, number)?;
        report.compare(which.bytes(), wanted, came.bytes())
    }

    /// What comes of the file and its schema, where this goes wrong.
    fn salvaged(
        &self,
        alloc: Global,
        ready: &Ready<'_>,
        hitch: Hitch,
    ) -> Result<Salvaged, LineError> {
        match Schema::read(alloc, ready.schema()) {
            Ok(schema) => Ok(self.salvaged_by(alloc, ready, &schema, hitch)?),
            Err(error) => Ok(Salvaged::stopped(alloc, End::from(error))),
        }
    }

    /// What comes of the file by this schema.
    fn salvaged_by(
        &self,
        alloc: Global,
        ready: &Ready<'_>,
        schema: &Schema,
        hitch: Hitch,
    ) -> Result<Salvaged, NoMemory> {
        let mut file = ready.file(alloc, hitch);
        file.lose(self.unread.copied(alloc)?);
        let mut sink = sink_of(alloc, hitch)?;
        let mut losses = losses_of(alloc, hitch)?;
        let blank = Blank::new(1);
        let end = self.go::<Brand>(alloc, &mut file, schema, &mut sink, &mut losses, blank);
        Salvaged::of(alloc, end, &sink, &losses)
    }

    /// A salvage of the file into the two sinks.
    fn go<L: Ledger>(
        &self,
        alloc: Global,
        file: &mut CasePages<'_>,
        schema: &Schema,
        sink: &mut MemorySink,
        losses: &mut MemorySink,
        blank: Blank,
    ) -> Result<Saved, End>
        requires name { blank.name ≡ L.name }
        requires parts { blank.parts ≡ L.parts }
        requires shared { 0 < blank.parts }
    {
        let steps = &mut Steps::<L>::new(blank);
        let saved = salvage(
            alloc, file, schema, self.kind, self.index, sink, losses, steps,
        )?;
        Ok(saved)
    }
}

impl Salvaged {
    /// A salvage that wrote nothing.
    fn stopped(alloc: Global, end: End) -> Salvaged {
        Salvaged {
            end: Err(end),
            text: ByteList::new(alloc),
            losses: ByteList::new(alloc),
        }
    }

    /// A salvage that ended so, with what the sinks were given.
    fn of(
        alloc: Global,
        end: Result<Saved, End>,
        sink: &MemorySink,
        losses: &MemorySink,
    ) -> Result<Salvaged, NoMemory> {
        let text = copied(alloc, sink.bytes())?;
        let losses = copied(alloc, losses.bytes())?;
        Ok(Salvaged { end, text, losses })
    }

    /// Whether no call failed, and memory sufficed.
    fn has_ended(&self) -> bool {
        matches!(self.end, Ok(_) | Err(End::Broken(_)) | Err(End::Root))
    }

    /// The words for a salvage, in the form in which the wanted ones stand: `ends` of any end but a failing call, and
    /// otherwise both outputs, or the word for what stopped the salvage.
    fn said_as(
        &self,
        alloc: Global,
        wanted: &[u8],
        whole: &Salvaged,
    ) -> Result<ByteList, NoMemory> {
        let mut said = ByteList::new(alloc);
        if wanted == b"ends".as_slice() && self.has_ended() {
            said.extend(b"ends")?;
            return Ok(said);
        }
        match self.end {
            Ok(saved) => self.put_saved(alloc, &mut said, &saved, wanted)?,
            Err(end) => self.put_stopped(&mut said, end, wanted, whole)?,
        }
        Ok(said)
    }

    /// Adds the word for what stopped the salvage. What was written before that has to be the front of the whole.
    fn put_stopped(
        &self,
        said: &mut ByteList,
        end: End,
        wanted: &[u8],
        whole: &Salvaged,
    ) -> Result<(), NoMemory> {
        end.put(said)?;
        if self.may_be_left_by(end, whole) {
            return Ok(());
        }
        said.extend(b" after ")?;
        self.put_outputs(said, wanted)
    }

    /// Adds whether all was given, and both outputs, of which the second ends in the numbers that were answered.
    fn put_saved(
        &self,
        alloc: Global,
        said: &mut ByteList,
        saved: &Saved,
        wanted: &[u8],
    ) -> Result<(), NoMemory> {
        let word: &[u8] = if saved.is_complete() {
            b"done "
        } else {
            b"lost "
        };
        said.extend(word)?;
        self.put_outputs(said, wanted)?;
        self.put_difference(alloc, said, saved)
    }

    /// Adds the numbers that were answered, if they aren't those that what is lost ends in.
    fn put_difference(
        &self,
        alloc: Global,
        said: &mut ByteList,
        saved: &Saved,
    ) -> Result<(), NoMemory> {
        let mut numbers = ByteList::new(alloc);
        put_saved(&mut numbers, saved)?;
        numbers.extend(b"\n")?;
        if self.losses.bytes().ends_with(numbers.bytes()) {
            return Ok(());
        }
        said.extend(b", but the answer is ")?;
        said.extend(numbers.bytes())
    }

    /// Adds the text, or its length and checksum where the wanted words have those, and what is lost.
    fn put_outputs(&self, said: &mut ByteList, wanted: &[u8]) -> Result<(), NoMemory> {
        let text = self.text.bytes();
        let is_short = wanted.starts_with(b"done bytes=") || wanted.starts_with(b"lost bytes=");
        if is_short {
            put_length(said, text.len() as u64, crc32c(text))?;
        } else if text.is_empty() {
            said.extend(b"nothing")?;
        } else {
            said.extend(text)?;
        }
        said.extend(b" | ")?;
        said.extend(self.losses.bytes())
    }

    /// Whether this may have been written before a salvage ended so: nothing before it knows what it looks for, and
    /// later fronts of the whole outputs.
    fn may_be_left_by(&self, end: End, whole: &Salvaged) -> bool {
        let (text, losses) = (self.text.bytes(), self.losses.bytes());
        match end {
            End::Source | End::Sink | End::Losses | End::Broken(_) => {
                whole.text.bytes().starts_with(text) && whole.losses.bytes().starts_with(losses)
            }
            _ => text.is_empty() && losses.is_empty(),
        }
    }
}

/// `rows`, `deleted` or `freed`.
fn read_kind(words: &mut Words) -> Result<RecordKind, LineError> {
    match words.next()? {
        "rows" => Ok(RecordKind::Live),
        "deleted" => Ok(RecordKind::Deleted),
        "freed" => Ok(RecordKind::Freed),
        _ => Err(LineError::Word),
    }
}
