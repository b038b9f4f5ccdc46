//! The command `sample`: the made table of so many rows in memory, and then the line of its numbers.

ghost use Rattle.std.specs.Prelude.{◌≡◌, ◌≤◌};
ghost use Rattle.page_source.specs.Calls.{Puts};
ghost use Rattle.ibd_cli.specs.Sample.{ServesSample, sample_line, sum_digits};

use crate::check::put_numbers;
use crate::status::Status;
use hex::encode_to_slice;
use itoa::Buffer;
use page_source::{ByteSink, Failed, Steps, put_pieces};
use sample_table::{Sample, sample};
use std::alloc::Global;
use std::sync::ledger::Ledger;

/// Builds the made table of so many rows in memory, checks and dumps it, and puts its numbers.
pub fn take_sample<O: ByteSink, L: Ledger>(
    alloc: Global,
    rows: u32,
    out: &mut O,
    steps: &mut Steps<L>,
) -> Status
    requires count { rows ≤ 200000 }
    ensures { ServesSample O.ByteSink rows out.old out.new result }
{
    match sample(alloc, rows, steps) {
        Ok(sample) => match put_sample(out, &sample) {
            Ok(()) => Status::Done,
            Err(Failed) => Status::SinkFault,
        },
        Err(stop) => Status::from(stop),
    }
}

fn put_sample<O: ByteSink>(out: &mut O, sample: &Sample) -> Result<(), Failed>
    ensures { Puts O.ByteSink out.old out.new (sample_line sample.now) result }
{
    let mut bytes = Buffer::new();
    let digits = sum_digits(sample.sum);
    let pieces = [
        b" bytes=".as_slice(),
        bytes.format(sample.bytes).as_bytes(),
        b" sum=",
        &digits,
        b"\n",
    ];
    put_numbers(out, &sample.checked)?;
    put_pieces(out, &pieces)
}

/// The sum in hexadecimal digits.
fn sum_digits(sum: u32) -> [u8; 8]
    ensures { result ≡ sum_digits sum }
{
    let mut digits = [0; 8];
    match encode_to_slice(sum.to_be_bytes(), &mut digits) {
        Ok(()) => digits,
        Err(_) => unreachable!(),
    }
}
