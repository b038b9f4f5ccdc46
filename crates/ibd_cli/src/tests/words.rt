//! The words of the command line, and the schema text. No call of the file may be made where these decide the answer.

use super::command::{Command, copy, expect, expect_both};
use itoa::Buffer;
use page_source::{ByteList, NoMemory};
use std::alloc::Global;
use std::process::Abort;
use std::test::Fail;
use vectors::{Which, file};

/// Schema texts that decide the answer alone, and that answer.
const SCHEMAS: [(&str, &str); 3] = [
    ("", "2||schema line 1 end\n"),
    (
        "table t dynamic\ncolumn id integer notnull\nclustered root 3 id\n",
        "2||schema line 2 form\n",
    ),
    (
        "table t dynamic\ncolumn id int notnull\nclustered root 3 id\nindex i root 3 id\n",
        "2||schema line 4 root\n",
    ),
];

#[test]
fn serves_no_other_words(rt: HostRuntime) -> Result<(), Fail> {
    let commands: [(&[&str], &str); 16] = [
        (&[], "1||usage\n"),
        (&["dump"], "1||usage\n"),
        (&["dump", "s"], "1||usage\n"),
        (&["dump", "s", "f", "g"], "1||usage\n"),
        (&["Dump", "s", "f"], "1||usage\n"),
        (&["check", "s"], "1||usage\n"),
        (&["check", "s", "f", "g"], "1||usage\n"),
        (&["cheque", "s", "f"], "1||usage\n"),
        (&["build", "s", "r"], "1||usage\n"),
        (&["get", "s", "f"], "1||usage\n"),
        (&["get", "s", "f", "1", "2"], "1||usage\n"),
        (&["sample"], "1||usage\n"),
        (&["sample", "07"], "1||usage\n"),
        (&["sample", "200001"], "1||usage\n"),
        (&["sample", "-1"], "1||usage\n"),
        (&["sample", "1", "2"], "1||usage\n"),
    ];
    for (words, want) in commands {
        let command = Command {
            words,
            file_fails: &[1],
            schema_fails: &[1],
            out_fails: &[1],
            ..Command::dump(b"")
        };
        expect(&rt, rt.alloc(), command, want)?;
    }
    Ok(())
}

/// The file's first call fails, so that none may be made.
fn expect_schema(rt: &impl Abort, alloc: Global, schema: &str, want: &str) -> Result<(), Fail> {
    let dump = Command {
        schema: schema.as_bytes(),
        file_fails: &[1],
        ..Command::dump(b"")
    };
    expect_both(rt, alloc, dump, [want, want])
}

#[test]
fn reads_the_schema_first(rt: HostRuntime) -> Result<(), Fail> {
    for (schema, want) in SCHEMAS {
        expect_schema(&rt, rt.alloc(), schema, want)?;
    }
    Ok(())
}

#[test]
fn refuses_a_long_schema(rt: HostRuntime) -> Result<(), Fail> {
    let long = Vec::from_elem(rt.alloc(), b'x', 70_000)?;
    let dump = Command {
        schema: &long,
        file_fails: &[1],
        ..Command::dump(b"")
    };
    let want = "2||schema line 1 size\n";
    expect_both(&rt, rt.alloc(), dump, [want, want])
}

/// A schema of the format COMPACT, of a file of the format DYNAMIC.
#[test]
fn checks_the_file_by_its_schema(rt: HostRuntime) -> Result<(), Fail> {
    let file = file(rt.alloc(), Which::B)?;
    let dump = Command {
        schema: b"table t compact\ncolumn id int notnull\nclustered root 3 id\n",
        ..Command::dump(file.bytes())
    };
    let want = "3||broken 5 head-flags page 0\n";
    expect_both(&rt, rt.alloc(), dump, [want, want])
}
