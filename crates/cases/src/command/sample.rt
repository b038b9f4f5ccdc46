//! The command `sample`: the made table of some rows.

ghost use Rattle.std.specs.Prelude.{◌≡◌, ◌≤◌, ◌<◌};

use case_files::error::LineError;
use case_files::words::Words;
use file_cases::outcome::{put_checked, put_length};
use file_cases::report::Report;
use page_source::{ByteList, NoMemory, Steps};
use sample_table::{Sample, SampleStop, sample};
use std::alloc::Global;
use std::marker::Brand;
use std::sync::ledger::{Blank, Ledger};

/// The most rows of a sample.
const MOST_ROWS: u32 = 200_000;

/// `sample N`.
#[derive(Drop)]
pub struct SampleCase {
    rows: u32,
}

impl SampleCase {
    pub fn read(words: &mut Words) -> Result<SampleCase, LineError> {
        let rows = u32::try_from(words.number()?).map_err(|_| LineError::Number)?;
        words.end()?;
        Ok(SampleCase { rows })
    }

    pub fn run(&self, alloc: Global, answer: &str, report: &mut Report) -> Result<(), LineError> {
        if self.rows > MOST_ROWS {
            return Err(LineError::Number);
        }
        let mut came = ByteList::new(alloc);
        put_sample(
            &mut came,
            sample_of::<Brand>(alloc, self.rows, Blank::new(1)),
        )?;
        report.compare(b"", answer.as_bytes(), came.bytes())
    }
}

fn sample_of<L: Ledger>(alloc: Global, rows: u32, blank: Blank) -> Result<Sample, SampleStop>
    requires count { rows ≤ 200000 }
    requires name { blank.name ≡ L.name }
    requires parts { blank.parts ≡ L.parts }
    requires shared { 0 < blank.parts }
{
    sample(alloc, rows, &mut Steps::<L>::new(blank))
}

/// Adds what a sample came to.
fn put_sample(text: &mut ByteList, made: Result<Sample, SampleStop>) -> Result<(), NoMemory> {
    match made {
        Ok(sample) => {
            put_checked(text, &sample.checked)?;
            text.extend(b" ")?;
            put_length(text, sample.bytes, sample.sum)
        }
        Err(SampleStop::Full) => text.extend(b"full"),
        Err(SampleStop::Memory) => text.extend(b"memory"),
    }
}
