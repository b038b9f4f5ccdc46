//! Each call of an object fails in turn, and outputs have little room.

use super::command::{Command, Outputs, expect};
use super::files::ALL;
use crate::Status;
use std::alloc::Global;
use std::process::Abort;
use std::test::Fail;
use vectors::{Which, file};

/// An object whose calls can fail.
#[derive(Clone, Copy, Debug, PartialEq, Eq)]
pub enum Object {
    File,
    Schema,
    Rows,
    Out,
    Target,
}

impl Object {
    /// The status and the line that blame it.
    fn blame(self) -> (Status, &'static str) {
        match self {
            Object::File | Object::Schema | Object::Rows => (Status::SourceFault, "source\n"),
            Object::Out => (Status::SinkFault, "sink\n"),
            Object::Target => (Status::StoreFault, "store\n"),
        }
    }

    /// The command, in which these calls of the object fail.
    pub fn failing<'a>(self, command: Command<'a>, calls: &'a [u64]) -> Command<'a> {
        match self {
            Object::File => Command {
                file_fails: calls,
                ..command
            },
            Object::Schema => Command {
                schema_fails: calls,
                ..command
            },
            Object::Rows => Command {
                rows_fails: calls,
                ..command
            },
            Object::Out => Command {
                out_fails: calls,
                ..command
            },
            Object::Target => Command {
                target_fails: calls,
                ..command
            },
        }
    }
}

/// Fails the test where the command ends otherwise, or wrote what is no part of this text.
pub fn expect_part(
    rt: &impl Abort,
    alloc: Global,
    command: Command,
    object: Object,
    whole: &str,
) -> Result<Outputs, Fail> {
    let (status, outputs) = command.run(alloc)?;
    let (blame, line) = object.blame();
    assert_eq!(rt; status, blame);
    assert_eq!(rt; outputs.err.bytes(), line.as_bytes());
    assert!(rt; whole.as_bytes().starts_with(outputs.out.bytes()));
    Ok(outputs)
}

/// Each of the first calls of the object fails in turn, of which there are so many at least.
fn expect_each_call(
    rt: &impl Abort,
    alloc: Global,
    command: Command,
    object: Object,
    whole: &str,
    least: u64,
) -> Result<(), Fail> {
    for call in 1..=least {
        let calls = [call];
        let failing = object.failing(command, &calls);
        expect_part(rt, alloc, failing, object, whole)?;
    }
    Ok(())
}

/// The line of a check of the file with three rows, and the lines of its dump.
const CHECKED: &str = "pages=6 used=4 rows=3 deleted=0 unreached=0\n";

pub const DUMPED: &str =
    "INSERT INTO `t` VALUES (-1);\nINSERT INTO `t` VALUES (0);\nINSERT INTO `t` VALUES (2147483647);\n";

// The size and each used page are read, the text of the schema and its end, and each number is put, or all rows at
// once.

fn expect_blame_of_check(rt: &impl Abort, alloc: Global, check: Command) -> Result<(), Fail> {
    expect_each_call(rt, alloc, check, Object::File, CHECKED, 5)?;
    expect_each_call(rt, alloc, check, Object::Schema, CHECKED, 2)?;
    expect_each_call(rt, alloc, check, Object::Out, CHECKED, 11)
}

fn expect_blame_of_dump(rt: &impl Abort, alloc: Global, dump: Command) -> Result<(), Fail> {
    expect_each_call(rt, alloc, dump, Object::File, DUMPED, 6)?;
    expect_each_call(rt, alloc, dump, Object::Schema, DUMPED, 2)?;
    expect_each_call(rt, alloc, dump, Object::Out, DUMPED, 1)
}

/// A call that isn't made fails, and nothing is blamed.
fn expect_no_blame(rt: &impl Abort, alloc: Global, dump: Command) -> Result<(), Fail> {
    for object in [Object::File, Object::Schema, Object::Out] {
        expect(rt, alloc, object.failing(dump, &[1000]), ALL)?;
    }
    Ok(())
}

#[test]
fn tells_which_object_failed(rt: HostRuntime) -> Result<(), Fail> {
    let file = file(rt.alloc(), Which::B)?;
    expect_blame_of_check(&rt, rt.alloc(), Command::check(file.bytes()))?;
    expect_blame_of_dump(&rt, rt.alloc(), Command::dump(file.bytes()))?;
    expect_no_blame(&rt, rt.alloc(), Command::dump(file.bytes()))
}

/// Fails the test where the output of a command has too little room, at once or at the end, and it ends otherwise.
fn expect_little_room(
    rt: &impl Abort,
    alloc: Global,
    command: Command,
    whole: &str,
) -> Result<(), Fail> {
    for room in [0, 1, whole.len().saturating_sub(1)] {
        let small = Command { room, ..command };
        expect_part(rt, alloc, small, Object::Out, whole)?;
    }
    Ok(())
}

#[test]
fn fills_the_output(rt: HostRuntime) -> Result<(), Fail> {
    let alloc = rt.alloc();
    let file = file(alloc, Which::B)?;
    expect_little_room(&rt, alloc, Command::check(file.bytes()), CHECKED)?;
    expect_little_room(&rt, alloc, Command::dump(file.bytes()), DUMPED)?;
    let full = Command {
        room: DUMPED.len(),
        ..Command::dump(file.bytes())
    };
    expect(&rt, alloc, full, ALL)
}

#[test]
fn goes_on_where_the_report_fails(rt: HostRuntime) -> Result<(), Fail> {
    let wants = [
        "3||",
        "3||broken ",
        "3||broken 1",
        "3||broken 1 ",
        "3||broken 1 file-size",
        "3||broken 1 file-size page ",
        "3||broken 1 file-size page 0",
        "3||broken 1 file-size page 0\n",
    ];
    for (call, want) in (1..).zip(wants) {
        let command = Command {
            err_fails: &[call],
            ..Command::dump(b"")
        };
        expect(&rt, rt.alloc(), command, want)?;
    }
    Ok(())
}
