//! The whole program as one call over the objects that reach outside.

ghost use Rattle.ibd_carve.specs.Run.{Serves, TakesSpace};
ghost use Rattle.ibd_carve.specs.Program.{Runs};

use crate::forms::{Form, form_of};
use crate::report::report;
use crate::status::{CarveStatus, status_of_list};
use crate::taken_line::put_taken;
use command_line::Words;
use image_carve::{PageFile, take};
use image_listing::list;
use page_source::{ByteSink, ByteSource};
use std::alloc::Global;

/// Does what the words ask for, and answers how it ended. The words are those of the command line without the program's
/// name; `image` is read, `file` is made anew, `out` and `err` are written. A failure of `err` ends nothing.
pub fn run_carve<Q: ByteSource, F: PageFile, O: ByteSink, E: ByteSink>(
    alloc: Global,
    words: &Words,
    image: &mut Q,
    file: &mut F,
    out: &mut O,
    err: &mut E,
) -> CarveStatus
    ensures { Runs
        (record { image = Q.ByteSource; file = F.PageFile; out = O.ByteSink; err = E.ByteSink })
        words.now
        (record { image = image.old; file = file.old; out = out.old; err = err.old })
        (record { image = image.new; file = file.new; out = out.new; err = err.new })
        result }
{
    let status = match form_of(words) {
        None => CarveStatus::Usage,
        Some(form) => serve(alloc, form, image, file, out),
    };
    report(err, status);
    status
}

/// Lists the image, or takes a space out of it.
fn serve<Q: ByteSource, F: PageFile, O: ByteSink>(
    alloc: Global,
    form: Form,
    image: &mut Q,
    file: &mut F,
    out: &mut O,
) -> CarveStatus
    ensures { Serves Q.ByteSource F.PageFile O.ByteSink form image.old image.new file.old file.new out.old out.new
        result }
{
    match form {
        Form::ListImage => status_of_list(list(alloc, image, out)),
        Form::TakeSpace(space) => take_space(alloc, space, image, file, out),
    }
}

/// Takes a space out of the image into the file, and then puts its line.
fn take_space<Q: ByteSource, F: PageFile, O: ByteSink>(
    alloc: Global,
    space: u32,
    image: &mut Q,
    file: &mut F,
    out: &mut O,
) -> CarveStatus
    ensures { TakesSpace Q.ByteSource F.PageFile O.ByteSink space image.old image.new file.old file.new out.old out.new
        result }
{
    match take(alloc, image, space, file) {
        Ok(taken) => match put_taken(out, taken) {
            Ok(()) => CarveStatus::Done,
            Err(_) => CarveStatus::SinkFault,
        },
        Err(stop) => CarveStatus::from(stop),
    }
}
