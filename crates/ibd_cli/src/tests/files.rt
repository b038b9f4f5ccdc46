//! The named files.

use super::command::{CHECK, Command, concat, expect, expect_both};
use page_source::{ByteList, NoMemory};
use std::alloc::Global;
use std::process::Abort;
use std::test::Fail;
use vectors::{Piece, Which, edited, file, schema};

/// What a dump of the file with three rows answers.
pub const ALL: &str =
    "0|INSERT INTO `t` VALUES (-1);\nINSERT INTO `t` VALUES (0);\nINSERT INTO `t` VALUES (2147483647);\n|";

#[test]
fn serves_named_files(rt: HostRuntime) -> Result<(), Fail> {
    let alloc = rt.alloc();
    let rows = file(alloc, Which::B)?;
    let wants = [ALL, "0|pages=6 used=4 rows=3 deleted=0 unreached=0\n|"];
    expect_both(&rt, alloc, Command::dump(rows.bytes()), wants)?;
    let none = file(alloc, Which::A)?;
    let wants = ["0||", "0|pages=6 used=4 rows=0 deleted=0 unreached=0\n|"];
    expect_both(&rt, alloc, Command::dump(none.bytes()), wants)
}

/// The supremum owns a record less.
#[test]
fn names_a_broken_rule(rt: HostRuntime) -> Result<(), Fail> {
    let file = edited(rt.alloc(), Which::B, &[&[(3, 107, b"\x03")]])?;
    let wants = ["3||broken 38 directory page 3\n"; 2];
    expect_both(&rt, rt.alloc(), Command::dump(file.bytes()), wants)
}

/// A row by its key, one that isn't there, and texts that are no key: the file's first call fails at those, so that
/// none may be made.
#[test]
fn gets_a_row(rt: HostRuntime) -> Result<(), Fail> {
    let alloc = rt.alloc();
    let file = file(alloc, Which::C)?;
    let cases: [(&str, &[u64], &str); 4] = [
        ("5", &[], "0|INSERT INTO `t` VALUES (5);\n|"),
        ("3", &[], "14||absent\n"),
        ("05", &[1], "13||key\n"),
        ("1,2", &[1], "13||key\n"),
    ];
    for (key, file_fails, want) in cases {
        let get = Command {
            words: &["get", "s", "f", key],
            file_fails,
            ..Command::dump(file.bytes())
        };
        expect(&rt, alloc, get, want)?;
    }
    Ok(())
}

/// In the file with a second index, a row and no entry.
const ROW_ALONE: [Piece<'static>; 5] = [
    (3, 40, b"\0\x91\x80\x03"),
    (3, 54, b"\0\x01"),
    (3, 97, b"\0\x1C"),
    (3, 107, b"\x02"),
    (
        3,
        120,
        b"\x01\0\0\0\x10\xFF\xF1\x80\0\0\x01\0\0\0\0\0\0\0\0\0\0\0\0\0b",
    ),
];

/// An entry and no row.
const ENTRY_ALONE: [Piece<'static>; 5] = [
    (4, 40, b"\0\x84\x80\x03"),
    (4, 54, b"\0\x01"),
    (4, 97, b"\0\x1C"),
    (4, 107, b"\x02"),
    (4, 120, b"\x01\0\0\0\x10\xFF\xF1b\x80\0\0\x01"),
];

#[test]
fn compares_the_indexes_with_the_rows(rt: HostRuntime) -> Result<(), Fail> {
    let alloc = rt.alloc();
    let cases: [(&[Piece], &str); 4] = [
        (&[], "0|indexes=1 entries=0\n|"),
        (&ROW_ALONE, "11||cross index 1 missing row 1\n"),
        (&ENTRY_ALONE, "12||cross index 1 extra page 4\n"),
        (&[(4, 38, b"\0\x03")], "3||broken 38 directory page 4\n"),
    ];
    for (edits, want) in cases {
        let file = edited(alloc, Which::D, &[edits])?;
        let cross = Command {
            words: &["cross", "s", "f"],
            schema: schema(Which::D).as_bytes(),
            ..Command::dump(file.bytes())
        };
        expect(&rt, alloc, cross, want)?;
    }
    Ok(())
}

/// The line with a value of 40,000 bytes, which is on three pages.
fn long_line(alloc: Global) -> Result<ByteList, NoMemory> {
    let note = Vec::from_elem(alloc, b'x', 40_000)?;
    concat(alloc, &[b"0|INSERT INTO `t` VALUES (1,'", &note, b"');\n|"])
}

fn expect_long_line(rt: &impl Abort, alloc: Global, dump: Command) -> Result<(), Fail> {
    let found = dump.answer(alloc)?;
    let want = long_line(alloc)?;
    assert_eq!(rt; found.bytes(), want.bytes());
    Ok(())
}

#[test]
fn dumps_a_long_value(rt: HostRuntime) -> Result<(), Fail> {
    let file = file(rt.alloc(), Which::E)?;
    let dump = Command {
        schema: schema(Which::E).as_bytes(),
        room: 50_000,
        ..Command::dump(file.bytes())
    };
    expect_long_line(&rt, rt.alloc(), dump)?;
    let check = Command {
        words: &CHECK,
        ..dump
    };
    let checked = "0|pages=8 used=7 rows=1 deleted=0 unreached=0\n|";
    expect(&rt, rt.alloc(), check, checked)
}
