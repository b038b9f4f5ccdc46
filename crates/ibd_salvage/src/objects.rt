//! The four objects that the program works on: for a proof any four, and behind `main` real files and streams.

ghost use Rattle.std.specs.Prelude.{◌≡◌, ◌<◌, ℕ, slice_get};
ghost use Rattle.ibd_salvage.specs.Program.{Runs};
ghost use Rattle.page_source.specs.Sources.{pages_to_read, text_to_read};

use crate::run::run_salvage;
use crate::status::SalvageStatus;
use command_line::Words;
use page_source::{ByteSink, ByteSource, FileBytes, FilePages, PageSource, StdSink, Steps};
use std::alloc::Global;
use std::io::{Stderr, Stdout};
use std::sync::ledger::{Blank, Ledger};

/// The objects of one salvage.
#[derive(Drop)]
pub struct Objects<F, Q, O, E> {
    /// The tablespace that is read.
    pub file: F,
    /// The schema text.
    pub schema: Q,
    /// The rows that are saved.
    pub out: O,
    /// What was lost, and the line of the status.
    pub err: E,
}

/// Real files and the two standard streams.
pub type RealObjects<'a> = Objects<
    FilePages<'a, HostRuntime>,
    FileBytes<'a, HostRuntime>,
    StdSink<Stdout>,
    StdSink<Stderr>,
>;

/// The objects that the words name: the schema text by the word after the kind, the tablespace by the next one. None is
/// opened before its first call.
pub fn name_objects<'a>(rt: &'a HostRuntime, words: &'a Words) -> RealObjects<'a>
    ensures file { result.file ≡ pages_to_read (slice_get words.now 2) }
    ensures schema { result.schema ≡ text_to_read (slice_get words.now 1) }
    ensures out { result.out ≡ 0 }
    ensures err { result.err ≡ 0 }
{
    Objects {
        file: FilePages::new(rt, words.get(2)),
        schema: FileBytes::new(rt, words.get(1)),
        out: StdSink::new(rt.stdout()),
        err: StdSink::new(rt.stderr()),
    }
}

impl<F, Q, O, E> Objects<F, Q, O, E>
where
    F: PageSource,
    Q: ByteSource,
    O: ByteSink,
    E: ByteSink,
{
    /// Saves what the words ask for, over these objects, and answers how it ended.
    pub fn start<L: Ledger>(&mut self, alloc: Global, words: &Words, blank: Blank) -> SalvageStatus
        requires name { blank.name ≡ L.name }
        requires parts { blank.parts ≡ L.parts }
        requires shared { 0 < blank.parts }
        ensures { (steps : ℕ) × Runs
            (record { file = F.PageSource; schema = Q.ByteSource; out = O.ByteSink; err = E.ByteSink })
            words.now self.old self.new 0 steps result }
    {
        run_salvage(
            alloc,
            words,
            &mut self.file,
            &mut self.schema,
            &mut self.out,
            &mut self.err,
            &mut Steps::<L>::new(blank),
        )
    }
}
