//! Checks, dumps and builds tablespaces of MySQL 5.7: the whole program as one call, and `main`, which hands it the
//! real objects.
#![tactic(auto)]

mod build;
mod check;
mod cross;
mod dump;
mod forms;
mod get;
pub mod laws;
mod objects;
mod report;
mod run;
mod sample;
mod status;
#[cfg(test)]
mod tests;

pub use command_line::Words;
use command_line::read_words;
use objects::name_objects;
use page_source::{StdSink, Steps};
use report::report;
pub use run::run;
pub use status::Status;
use std::marker::Brand;
use std::process::ExitCode;
use std::sync::ledger::Blank;

fn main(rt: HostRuntime) -> ExitCode {
    let status = match read_words(rt.alloc(), &rt) {
        Ok(words) => name_objects(&rt, &words).start::<Brand>(rt.alloc(), &words, Blank::new(1)),
        Err(_) => {
            report(&mut StdSink::new(rt.stderr()), Status::Memory);
            Status::Memory
        }
    };
    status.exit_code()
}
