//! The command `build`, and what a check and a dump say of its target.

use super::command::{Command, concat, expect};
use super::failing::{DUMPED, Object, expect_part};
use super::files::ALL;
use itoa::Buffer;
use page_source::{ByteList, NoMemory, PageSource, SparsePages};
use std::alloc::Global;
use std::process::Abort;
use std::test::Fail;

/// The line of a build of three rows, what it answers, and what a check of its target answers.
const BUILT: &str = "pages=64 rows=3\n";

const ANSWERED: &str = "0|pages=64 rows=3\n|";

const CHECKED: &str = "0|pages=64 used=4 rows=3 deleted=0 unreached=0\n|";

/// What a check answers of a target without a size, and of one whose page 0 is zeros.
const UNSIZED: &str = "3||broken 1 file-size page 0\n";

const HEADLESS: &str = "3||broken 2 head-frame page 0\n";

/// Fails the test where the command answers something else of this file.
fn expect_over<F: PageSource>(
    rt: &impl Abort,
    alloc: Global,
    file: &mut F,
    command: Command,
    want: &[u8],
) -> Result<(), Fail> {
    let found = command.answer_over(alloc, file)?;
    assert_eq!(rt; found.bytes(), want);
    Ok(())
}

/// The target of a build of these lines. Fails the test where the build answers something else.
fn built(rt: &impl Abort, alloc: Global, lines: &[u8], want: &str) -> Result<SparsePages, Fail> {
    let (status, outputs) = Command::build(lines).run(alloc)?;
    let found = outputs.answer(alloc, status)?;
    assert_eq!(rt; found.bytes(), want.as_bytes());
    Ok(outputs.into_file(alloc)?)
}

#[test]
fn builds_what_dumps_as_it_was(rt: HostRuntime) -> Result<(), Fail> {
    let alloc = rt.alloc();
    let mut file = built(&rt, alloc, DUMPED.as_bytes(), ANSWERED)?;
    expect_over(
        &rt,
        alloc,
        &mut file,
        Command::check(b""),
        CHECKED.as_bytes(),
    )?;
    expect_over(&rt, alloc, &mut file, Command::dump(b""), ALL.as_bytes())
}

/// No call of the target may be made, and none of the rows where a root is refused.
#[test]
fn refuses_rows_and_roots(rt: HostRuntime) -> Result<(), Fail> {
    let cases = [
        ("INSERT INTO `t` VALUES (1);", "4||rows line 1 line\n"),
        (
            "INSERT INTO `t` VALUES (2);\nINSERT INTO `t` VALUES (1);\n",
            "4||rows line 2 order\n",
        ),
    ];
    for (rows, want) in cases {
        let build = Command::build(rows.as_bytes());
        expect(&rt, rt.alloc(), Object::Target.failing(build, &[1]), want)?;
    }
    let build = Command {
        schema: b"table t dynamic\ncolumn id int notnull\nclustered root 4 id\n",
        rows_fails: &[1],
        ..Object::Target.failing(Command::build(DUMPED.as_bytes()), &[1])
    };
    expect(&rt, rt.alloc(), build, "2||schema line 3 root\n")
}

/// Each of so many calls of the object fails in turn, and then none; a check of the target answers this each time.
fn expect_faults(
    rt: &impl Abort,
    alloc: Global,
    object: Object,
    calls: u64,
    want: &str,
) -> Result<(), Fail> {
    let build = Command::build(DUMPED.as_bytes());
    for call in 1..=calls {
        let fails = [call];
        let outputs = expect_part(rt, alloc, object.failing(build, &fails), object, BUILT)?;
        let mut file = outputs.into_file(alloc)?;
        let want = if call == 1 && object == Object::Target {
            UNSIZED
        } else {
            want
        };
        expect_over(rt, alloc, &mut file, Command::check(b""), want.as_bytes())?;
    }
    let none = [calls.saturating_add(1)];
    expect(
        rt,
        alloc,
        object.failing(build, &none),
        "0|pages=64 rows=3\n|",
    )
}

/// Both texts and their ends are read, the target gets its size and pages 3, 2, 1 and 0, and the line has five pieces.
#[test]
fn tells_which_object_failed(rt: HostRuntime) -> Result<(), Fail> {
    let alloc = rt.alloc();
    expect_faults(&rt, alloc, Object::Schema, 2, UNSIZED)?;
    expect_faults(&rt, alloc, Object::Rows, 2, UNSIZED)?;
    expect_faults(&rt, alloc, Object::Target, 5, HEADLESS)?;
    expect_faults(&rt, alloc, Object::Out, 5, CHECKED)
}

/// The lines of the rows 1 to `count`.
fn lines_up_to(alloc: Global, count: u32) -> Result<ByteList, NoMemory> {
    let mut lines = ByteList::new(alloc);
    for id in 1..=count {
        let mut digits = Buffer::new();
        lines.extend(b"INSERT INTO `t` VALUES (")?;
        lines.extend(digits.format(id).as_bytes())?;
        lines.extend(b");\n")?;
    }
    Ok(lines)
}

/// Fails the test where a dump of the file answers other lines.
fn expect_lines(
    rt: &impl Abort,
    alloc: Global,
    file: &mut SparsePages,
    lines: &[u8],
) -> Result<(), Fail> {
    let dump = Command {
        room: 100_000,
        ..Command::dump(b"")
    };
    let want = concat(alloc, &[b"0|", lines, b"|"])?;
    expect_over(rt, alloc, file, dump, want.bytes())
}

#[test]
fn builds_three_thousand_rows(rt: HostRuntime) -> Result<(), Fail> {
    let alloc = rt.alloc();
    let lines = lines_up_to(alloc, 3_000)?;
    let mut file = built(&rt, alloc, lines.bytes(), "0|pages=64 rows=3000\n|")?;
    let checked = b"0|pages=64 used=9 rows=3000 deleted=0 unreached=0\n|";
    expect_over(&rt, alloc, &mut file, Command::check(b""), checked)?;
    expect_lines(&rt, alloc, &mut file, lines.bytes())
}
