//! The command `sample`, which calls no object but the standard output.

use super::command::{Command, expect};
use super::failing::{Object, expect_part};
use std::test::Fail;

/// The line of a sample of no row.
const NO_ROW: &str = "pages=64 used=5 rows=0 deleted=0 unreached=0 bytes=0 sum=00000000\n";

/// A sample of so many rows. No call of the file and the schema may be made.
fn sample_of<'a>(words: &'a [&'a str; 2]) -> Command<'a> {
    Command {
        words,
        file_fails: &[1],
        schema_fails: &[1],
        ..Command::dump(b"")
    }
}

#[test]
fn samples_few_rows(rt: HostRuntime) -> Result<(), Fail> {
    let lines = [
        (
            ["sample", "0"],
            "0|pages=64 used=5 rows=0 deleted=0 unreached=0 bytes=0 sum=00000000\n|",
        ),
        (
            ["sample", "1"],
            "0|pages=64 used=5 rows=1 deleted=0 unreached=0 bytes=163 sum=2fe0b6f9\n|",
        ),
        (
            ["sample", "2"],
            "0|pages=64 used=5 rows=2 deleted=0 unreached=0 bytes=338 sum=576850ff\n|",
        ),
    ];
    for (words, want) in lines {
        expect(&rt, rt.alloc(), sample_of(&words), want)?;
    }
    Ok(())
}

/// The numbers are put in ten pieces, and the bytes and the sum in five.
#[test]
fn tells_that_the_output_failed(rt: HostRuntime) -> Result<(), Fail> {
    let words = ["sample", "0"];
    for call in 1..=15 {
        let fails = [call];
        let failing = Object::Out.failing(sample_of(&words), &fails);
        expect_part(&rt, rt.alloc(), failing, Object::Out, NO_ROW)?;
    }
    Ok(())
}
