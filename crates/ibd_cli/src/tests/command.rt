//! A command, and what it is given: the harness of the tests.

ghost use Rattle.std.specs.Prelude.{◌≡◌, ◌<◌, IfOk};
ghost use Rattle.page_source.specs.Memory.{store_of};
ghost use Rattle.page_source.specs.Objects.{IsFresh};

use crate::{Status, Words, run};
use itoa::Buffer;
use page_source::{
    ByteList, Fails, MemoryBytes, MemoryPages, MemorySink, MemoryStore, NoMemory, PageSource,
    SparsePages, Steps,
};
use std::alloc::Global;
use std::marker::Brand;
use std::process::Abort;
use std::sync::ledger::{Blank, Ledger};
use std::test::Fail;
use vectors::{Which, schema};

/// More than any text that is written here.
const ROOM: usize = 1000;

/// The words of a dump, of a check, and of a build.
pub const DUMP: [&str; 3] = ["dump", "s", "f"];

pub const CHECK: [&str; 3] = ["check", "s", "f"];

pub const BUILD: [&str; 4] = ["build", "s", "r", "f"];

/// A command and what it is given. The calls with these numbers fail.
#[derive(Clone, Copy)]
pub struct Command<'a> {
    pub words: &'a [&'a str],
    pub file: &'a [u8],
    pub file_fails: &'a [u64],
    pub schema: &'a [u8],
    pub schema_fails: &'a [u64],
    pub rows: &'a [u8],
    pub rows_fails: &'a [u64],
    pub room: usize,
    pub out_fails: &'a [u64],
    pub err_fails: &'a [u64],
    pub target_room: u32,
    pub target_fails: &'a [u64],
}

impl<'a> Command<'a> {
    /// A dump of the file, whose table has one column. No call of the rows and the target may be made.
    pub fn dump(file: &'a [u8]) -> Command<'a> {
        Command {
            words: &DUMP,
            file,
            file_fails: &[],
            schema: schema(Which::A).as_bytes(),
            schema_fails: &[],
            rows: b"",
            rows_fails: &[1],
            room: ROOM,
            out_fails: &[],
            err_fails: &[],
            target_room: 0,
            target_fails: &[1],
        }
    }

    /// A check of the same.
    pub fn check(file: &'a [u8]) -> Command<'a> {
        Command {
            words: &CHECK,
            ..Command::dump(file)
        }
    }

    /// A build of these rows of the table, whose target has room for an extent. No call of the file may be made.
    pub fn build(rows: &'a [u8]) -> Command<'a> {
        Command {
            words: &BUILD,
            file_fails: &[1],
            rows,
            rows_fails: &[],
            target_room: 64,
            target_fails: &[],
            ..Command::dump(b"")
        }
    }

    /// How it ends, and what it wrote.
    pub fn run(&self, alloc: Global) -> Result<(Status, Outputs), NoMemory> {
        let mut file = MemoryPages::new(
            copy(alloc, self.file)?,
            Fails::of(alloc, self.file_fails)?,
        );
        self.run_over(alloc, &mut file)
    }

    /// The same over a file of any kind, in the place of its own.
    pub fn run_over<F: PageSource>(
        &self,
        alloc: Global,
        file: &mut F,
    ) -> Result<(Status, Outputs), NoMemory> {
        let words = words_of(alloc, self.words)?;
        let mut texts = self.texts(alloc)?;
        let mut outputs = self.outputs(alloc)?;
        let status = status::<F, Brand>(
            alloc,
            &words,
            file,
            &mut texts,
            &mut outputs,
            Blank::new(1),
        );
        Ok((status, outputs))
    }

    /// The exit status, the standard output and the standard error, with bars between.
    pub fn answer(&self, alloc: Global) -> Result<ByteList, NoMemory> {
        let (status, outputs) = self.run(alloc)?;
        outputs.answer(alloc, status)
    }

    /// The same over a file of any kind, in the place of its own.
    pub fn answer_over<F: PageSource>(
        &self,
        alloc: Global,
        file: &mut F,
    ) -> Result<ByteList, NoMemory> {
        let (status, outputs) = self.run_over(alloc, file)?;
        outputs.answer(alloc, status)
    }

    fn texts(&self, alloc: Global) -> Result<Texts, NoMemory> {
        let schema = bytes_of(alloc, self.schema, self.schema_fails)?;
        let rows = bytes_of(alloc, self.rows, self.rows_fails)?;
        Ok(Texts { schema, rows })
    }

    fn outputs(&self, alloc: Global) -> Result<Outputs, NoMemory>
        ensures { IfOk result (λ outputs. IsFresh (store_of outputs.target)) }
    {
        let out = sink_of(alloc, self.room, self.out_fails)?;
        let err = sink_of(alloc, ROOM, self.err_fails)?;
        let target = target_of(alloc, self.target_room, self.target_fails)?;
        Ok(Outputs { out, err, target })
    }
}

/// The texts that the program reads.
#[derive(Drop)]
struct Texts {
    schema: MemoryBytes,
    rows: MemoryBytes,
}

/// What the program writes.
#[derive(Drop)]
pub struct Outputs {
    pub out: MemorySink,
    pub err: MemorySink,
    target: MemoryStore,
}

impl Outputs {
    /// The exit status, the standard output and the standard error, with bars between.
    pub fn answer(&self, alloc: Global, status: Status) -> Result<ByteList, NoMemory> {
        let mut number = Buffer::new();
        let number = number.format(status.number()).as_bytes();
        concat(
            alloc,
            &[number, b"|", self.out.bytes(), b"|", self.err.bytes()],
        )
    }

    /// The target as a file.
    pub fn into_file(self, alloc: Global) -> Result<SparsePages, NoMemory> {
        self.target.into_pages(Fails::of(alloc, &[])?)
    }
}

fn status<F: PageSource, L: Ledger>(
    alloc: Global,
    words: &Words,
    file: &mut F,
    texts: &mut Texts,
    outputs: &mut Outputs,
    blank: Blank,
) -> Status
    requires name { blank.name ≡ L.name }
    requires parts { blank.parts ≡ L.parts }
    requires shared { 0 < blank.parts }
    requires fresh { IsFresh (store_of outputs.old.target) }
{
    run(
        alloc,
        words,
        file,
        &mut texts.schema,
        &mut texts.rows,
        &mut outputs.out,
        &mut outputs.err,
        &mut outputs.target,
        &mut Steps::<L>::new(blank),
    )
}

fn words_of(alloc: Global, texts: &[&str]) -> Result<Words, NoMemory> {
    let mut words = Words::new(alloc);
    for text in texts {
        words.push(text.as_bytes())?;
    }
    Ok(words)
}

fn bytes_of(alloc: Global, bytes: &[u8], fails: &[u64]) -> Result<MemoryBytes, NoMemory> {
    Ok(MemoryBytes::new(copy(alloc, bytes)?, Fails::of(alloc, fails)?))
}

fn sink_of(alloc: Global, room: usize, fails: &[u64]) -> Result<MemorySink, NoMemory> {
    MemorySink::new(alloc, room, Fails::of(alloc, fails)?)
}

fn target_of(alloc: Global, room: u32, fails: &[u64]) -> Result<MemoryStore, NoMemory>
    ensures { IfOk result (λ target. IsFresh (store_of target)) }
{
    MemoryStore::new(alloc, room, Fails::of(alloc, fails)?)
}

/// These bytes.
pub fn copy(alloc: Global, bytes: &[u8]) -> Result<ByteList, NoMemory> {
    let mut list = ByteList::new(alloc);
    list.extend(bytes)?;
    Ok(list)
}

/// Fails the test where the command answers something else.
pub fn expect(rt: &impl Abort, alloc: Global, command: Command, want: &str) -> Result<(), Fail> {
    let found = command.answer(alloc)?;
    assert_eq!(rt; found.bytes(), want.as_bytes());
    Ok(())
}

/// The same for a dump, and for a check of the same file.
pub fn expect_both(
    rt: &impl Abort,
    alloc: Global,
    dump: Command,
    wants: [&str; 2],
) -> Result<(), Fail> {
    let check = Command {
        words: &CHECK,
        ..dump
    };
    expect(rt, alloc, dump, wants[0])?;
    expect(rt, alloc, check, wants[1])
}

/// These bytes one after another.
pub fn concat(alloc: Global, parts: &[&[u8]]) -> Result<ByteList, NoMemory> {
    let mut whole = ByteList::new(alloc);
    for part in parts {
        whole.extend(part)?;
    }
    Ok(whole)
}
