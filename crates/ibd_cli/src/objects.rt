//! The six objects that the program works on: for a proof any six, and behind `main` real files and streams.

ghost use Rattle.std.specs.Prelude.{◌≡◌, ◌<◌, ℕ, slice_get};
ghost use Rattle.page_source.specs.Objects.{IsFresh};
ghost use Rattle.page_source.specs.Sources.{pages_to_read, text_to_read, pages_to_make};
ghost use Rattle.ibd_cli.specs.Forms.{IsForm};
ghost use Rattle.ibd_cli.specs.Program.{Runs, telling};

use crate::forms::Form;
use crate::run::run;
use crate::status::Status;
use command_line::Words;
use page_source::{
    ByteSink, ByteSource, FileBytes, FilePages, FileStore, PageSource, PageStore, StdSink, Steps,
};
use std::alloc::Global;
use std::io::{Stderr, Stdout};
use std::sync::ledger::{Blank, Ledger};

/// The objects of one command, whatever it names of them.
#[derive(Drop)]
pub struct Objects<F, Q, R, O, E, T> {
    /// The tablespace that is read.
    pub file: F,
    /// The schema text.
    pub schema: Q,
    /// The rows of a build.
    pub rows: R,
    /// What is written on the standard output.
    pub out: O,
    /// The line of a status.
    pub err: E,
    /// The tablespace that a build makes.
    pub target: T,
}

/// Real files and the two standard streams.
pub type RealObjects<'a> = Objects<
    FilePages<'a, HostRuntime>,
    FileBytes<'a, HostRuntime>,
    FileBytes<'a, HostRuntime>,
    StdSink<Stdout>,
    StdSink<Stderr>,
    FileStore<'a, HostRuntime>,
>;

/// The objects that the words name: the schema text by the first word behind the command, the tablespace by the second,
/// or in a build the rows by the second and the tablespace by the third. None is opened before its first call.
pub fn name_objects<'a>(rt: &'a HostRuntime, words: &'a Words) -> RealObjects<'a>
    ensures file { result.file ≡ pages_to_read (slice_get words.now 2) }
    ensures schema { result.schema ≡ text_to_read (slice_get words.now 1) }
    ensures rows { result.rows ≡ text_to_read (slice_get words.now 2) }
    ensures target { result.target ≡ pages_to_make (slice_get words.now 3) }
    ensures out { result.out ≡ 0 }
    ensures err { result.err ≡ 0 }
{
    Objects {
        file: FilePages::new(rt, words.get(2)),
        schema: FileBytes::new(rt, words.get(1)),
        rows: FileBytes::new(rt, words.get(2)),
        out: StdSink::new(rt.stdout()),
        err: StdSink::new(rt.stderr()),
        target: FileStore::new(rt, words.get(3)),
    }
}

impl<F, Q, R, O, E, T> Objects<F, Q, R, O, E, T>
where
    F: PageSource,
    Q: ByteSource,
    R: ByteSource,
    O: ByteSink,
    E: ByteSink,
    T: PageStore,
{
    /// Does what the words ask for, over these objects, and answers how it ended.
    pub fn start<L: Ledger>(&mut self, alloc: Global, words: &Words, blank: Blank) -> Status
        requires name { blank.name ≡ L.name }
        requires parts { blank.parts ≡ L.parts }
        requires shared { 0 < blank.parts }
        requires fresh { IsForm words.now Form.Build → IsFresh (T.told self.old.target) }
        ensures { (steps : ℕ) × Runs
            (telling F.PageSource Q.ByteSource R.ByteSource O.ByteSink E.ByteSink T.PageStore)
            words.now self.old self.new 0 steps result }
    {
        run(
            alloc,
            words,
            &mut self.file,
            &mut self.schema,
            &mut self.rows,
            &mut self.out,
            &mut self.err,
            &mut self.target,
            &mut Steps::<L>::new(blank),
        )
    }
}
