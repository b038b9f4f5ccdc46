//! Saves the rows of a tablespace of MySQL 5.7 that may be broken anywhere: the whole program as one call, and `main`,
//! which hands it the real objects.
#![tactic(auto)]

mod forms;
mod objects;
mod report;
mod run;
mod status;

pub use command_line::Words;
use command_line::read_words;
use objects::name_objects;
use page_source::StdSink;
use report::report;
pub use run::run_salvage;
pub use status::SalvageStatus;
use std::marker::Brand;
use std::process::ExitCode;
use std::sync::ledger::Blank;

fn main(rt: HostRuntime) -> ExitCode {
    let status = match read_words(rt.alloc(), &rt) {
        Ok(words) => name_objects(&rt, &words).start::<Brand>(rt.alloc(), &words, Blank::new(1)),
        Err(_) => {
            report(&mut StdSink::new(rt.stderr()), SalvageStatus::Memory);
            SalvageStatus::Memory
        }
    };
    ExitCode::from(status.number())
}
