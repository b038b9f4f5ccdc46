//! The four objects that the program works on: for a proof any four, and under `main` real files and streams.

ghost use Rattle.std.specs.Prelude.{◌≡◌, slice_get};
ghost use Rattle.ibd_carve.specs.declared.forms.Form.{Form};
ghost use Rattle.ibd_carve.specs.Forms.{IsForm, image_place};
ghost use Rattle.ibd_carve.specs.Program.{Runs};
ghost use Rattle.page_source.specs.Sources.{text_to_read, pages_to_make};

use crate::forms::{Form, form_of};
use crate::run::run_carve;
use crate::status::CarveStatus;
use command_line::Words;
use image_carve::PageFile;
use page_source::{ByteSink, ByteSource, FileBytes, FileStore, StdSink};
use std::alloc::Global;
use std::io::{Stderr, Stdout};

/// The objects of one run.
#[derive(Drop)]
pub struct Objects<Q, F, O, E> {
    /// The image that is read.
    pub image: Q,
    /// The file that is made.
    pub file: F,
    /// The listing, or the line of the file.
    pub out: O,
    /// The line of the status.
    pub err: E,
}

/// Real files and the two standard streams.
pub type RealObjects<'a> = Objects<
    FileBytes<'a, HostRuntime>,
    FileStore<'a, HostRuntime>,
    StdSink<Stdout>,
    StdSink<Stderr>,
>;

/// The objects that the words name: of `list` the image by the word after it, of `take` the image by the word after the
/// space id, and the file by the next one. None is opened before its first call.
pub fn name_objects<'a>(rt: &'a HostRuntime, words: &'a Words) -> RealObjects<'a>
    ensures image { (form : Form) → IsForm words.now form
        → result.image ≡ text_to_read (slice_get words.now (image_place form)) }
    ensures file { result.file ≡ pages_to_make (slice_get words.now 3) }
    ensures out { result.out ≡ 0 }
    ensures err { result.err ≡ 0 }
{
    let image_place = match form_of(words) {
        Some(Form::TakeSpace(_)) => 2,
        _ => 1,
    };
    Objects {
        image: FileBytes::new(rt, words.get(image_place)),
        file: FileStore::new(rt, words.get(3)),
        out: StdSink::new(rt.stdout()),
        err: StdSink::new(rt.stderr()),
    }
}

impl<Q, F, O, E> Objects<Q, F, O, E>
where
    Q: ByteSource,
    F: PageFile,
    O: ByteSink,
    E: ByteSink,
{
    /// Does what the words ask for, over these objects, and answers how it ended.
    pub fn start(&mut self, alloc: Global, words: &Words) -> CarveStatus
        ensures { Runs
            (record { image = Q.ByteSource; file = F.PageFile; out = O.ByteSink; err = E.ByteSink })
            words.now self.old self.new result }
    {
        run_carve(
            alloc,
            words,
            &mut self.image,
            &mut self.file,
            &mut self.out,
            &mut self.err,
        )
    }
}
