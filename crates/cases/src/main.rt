//! Tries the cases of the standard input, prints each line that comes out otherwise, and last how many cases passed.
//! The README beside this folder says how lines are written.
#![tactic(auto)]

mod command;
mod line;

use case_files::named_files::NamedFiles;
use line::try_line;
use std::alloc::Global;
use std::io::{BufRead, BufReader};

/// How many cases passed, and how many didn't.
#[derive(Clone, Copy)]
struct Tally {
    passed: u64,
    failed: u64,
}

impl Tally {
    /// Counts the cases of a line, and prints it where one of them failed.
    fn count_line<R: Print>(
        &mut self,
        rt: &R,
        alloc: Global,
        files: &mut NamedFiles,
        line: &str,
    ) -> anyhow::Result<()> {
        match try_line(alloc, files, line) {
            Ok(report) => {
                self.passed = self.passed.saturating_add(report.passed());
                self.failed = self.failed.saturating_add(report.failed());
                if report.failed() > 0 {
                    let came = String::from_utf8_lossy(alloc, report.came())?;
                    print!(rt; "{line}\n{came}")?;
                }
            }
            Err(error) => {
                self.failed = self.failed.saturating_add(1);
                println!(rt; "{line}\n    can't be read: {error}")?;
            }
        }
        Ok(())
    }
}

fn main(rt: HostRuntime) -> anyhow::Result<()> {
    let alloc = rt.alloc();
    let mut files = NamedFiles::new(alloc)?;
    let mut tally = Tally {
        passed: 0,
        failed: 0,
    };
    for line in BufReader::new(alloc, rt.reader())?.lines(alloc) {
        tally.count_line(&rt, alloc, &mut files, line?.as_str())?;
    }
    if tally.passed == 0 && tally.failed == 0 {
        tally.failed = 1;
        println!(rt; "no case")?;
    }
    println!(rt; "{} passed, {} failed", tally.passed, tally.failed)?;
    Ok(())
}
