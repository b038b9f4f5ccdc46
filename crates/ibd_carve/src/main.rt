//! Puts together what stands of a dropped tablespace in a raw image of a disk: the whole program as one call, and
//! `main`, which hands it the real objects.
#![tactic(auto)]

mod forms;
mod objects;
mod report;
mod run;
mod status;
mod taken_line;

pub use command_line::Words;
use command_line::read_words;
use objects::name_objects;
use page_source::StdSink;
use report::report;
pub use run::run_carve;
pub use status::CarveStatus;
use std::process::ExitCode;

fn main(rt: HostRuntime) -> ExitCode {
    let status = match read_words(rt.alloc(), &rt) {
        Ok(words) => name_objects(&rt, &words).start(rt.alloc(), &words),
        Err(_) => {
            report(&mut StdSink::new(rt.stderr()), CarveStatus::Memory);
            CarveStatus::Memory
        }
    };
    ExitCode::from(status.number())
}
