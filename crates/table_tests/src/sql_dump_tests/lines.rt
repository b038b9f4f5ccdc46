//! The lines of crafted records, over a file that tells nothing.

ghost use Rattle.std.specs.Prelude.{◌≡◌, ◌<◌, ◌≤◌};

use page_source::{
    ByteList, ChangingPages, Fails, Fault, MemorySink, NoMemory, Page, Rule, Steps, write_be,
};
use schema_text::Schema;
use sql_dump::{ChainRoom, Row, RowReader, WriteStop, put_row};
use std::alloc::Global;
use std::marker::Brand;
use std::process::Abort;
use std::sync::ledger::{Blank, Ledger};
use std::test::Fail;

const TABLE: &[u8] =
    b"table t dynamic\ncolumn id int notnull\ncolumn note text null\nclustered root 3 id\n";

/// The leaf on which each record is said to stand.
pub const LEAF: u32 = 3;

const ORIGIN: usize = 300;

/// Where the text begins, behind the id, the transaction id and the roll pointer.
const NOTE: usize = ORIGIN + 17;

/// A record with the id 7: whether its text is null, its local bytes, and whether a reference to page 0 stands behind
/// them, for the bytes of the parts on the pages from there on. Then how many pages may be fetched, and what stands in
/// the parentheses.
#[derive(Clone, Copy)]
struct Case {
    null: bool,
    local: &'static [u8],
    parts: &'static [&'static [u8]],
    left: u32,
    values: Result<&'static [u8], WriteStop>,
}

const SHORT: Case = Case {
    null: false,
    local: b"it's",
    parts: &[],
    left: 2,
    values: Ok(b"7,'it\\'s'"),
};

const LONG: Case = Case {
    local: b"a",
    parts: &[b"b\n", b"c"],
    values: Ok(b"7,'ab\\nc'"),
    ..SHORT
};

const NULL: Case = Case {
    null: true,
    local: b"",
    values: Ok(b"7,NULL"),
    ..SHORT
};

/// One page less may be fetched than the value has.
const CUT: Case = Case {
    left: 1,
    values: Err(WriteStop::Broken(Fault {
        rule: Rule::ChainLength,
        page: 1,
    })),
    ..LONG
};

/// How many bytes these parts have.
fn length_of(rt: &impl Abort, parts: &[&[u8]]) -> u64
    ensures { result < 9000 }
{
    let mut total = 0;
    for part in parts {
        assert!(rt; part.len() < 1000 && total < 9000);
        total += part.len() as u64;
    }
    assert!(rt; total < 9000);
    total
}

/// Puts the length of the text, by that of its local bytes, and the reference behind them where it has parts of so many
/// bytes.
fn put_length(page: &mut Page, null: bool, local: usize, total: u64)
    requires local { local < 100 }
    requires total { total < 9000 }
{
    if total > 0 {
        page.put_bytes(ORIGIN - 8, &[local as u8 + 20, 0xC0]);
        write_be::<4>(page, NOTE + local + 8, 38);
        write_be::<4>(page, NOTE + local + 16, total);
    } else if !null {
        page.put_bytes(ORIGIN - 7, &[local as u8]);
    }
}

/// Writes the record.
fn put_record(rt: &impl Abort, page: &mut Page, case: &Case) {
    let total = length_of(rt, case.parts);
    let local = case.local.len();
    assert!(rt; local < 100);
    page.clear();
    page.put_bytes(ORIGIN, &[0x80, 0, 0, 7]);
    page.put_bytes(ORIGIN - 6, &[u8::from(case.null)]);
    page.put_bytes(NOTE, case.local);
    put_length(page, case.null, local, total);
}

/// The pages of its chain.
fn chain(rt: &impl Abort, alloc: Global, case: &Case) -> Result<ByteList, Fail> {
    let mut file = ByteList::new(alloc);
    let mut page = Page::zeroed(alloc)?;
    for (n, part) in case.parts.iter().enumerate() {
        assert!(rt; part.len() < 1000 && n < 9);
        let is_last = n + 1 == case.parts.len();
        page.clear();
        write_be::<4>(&mut page, 38, part.len() as u64);
        write_be::<4>(
            &mut page,
            42,
            if is_last { 0xFFFF_FFFF } else { n as u64 + 1 },
        );
        page.put_bytes(46, part);
        file.extend(page.bytes())?;
    }
    Ok(file)
}

fn sink_of(alloc: Global) -> Result<MemorySink, NoMemory> {
    MemorySink::new(alloc, 1000, Fails::of(alloc, &[])?)
}

/// Puts the line of a row.
fn put<L: Ledger>(
    source: &mut ChangingPages,
    sink: &mut MemorySink,
    row: &Row,
    room: &mut ChainRoom,
    blank: Blank,
) -> Result<(), WriteStop>
    requires name { blank.name ≡ L.name }
    requires parts { blank.parts ≡ L.parts }
    requires shared { 0 < blank.parts }
{
    put_row(source, sink, row, room, &mut Steps::<L>::new(blank))
}

/// Reads the record at this origin of a page, and puts its line, with so many parts at most from this file.
pub fn put_one<L: Ledger>(
    alloc: Global,
    table: &Schema,
    page: &Page,
    origin: usize,
    file: ByteList,
    left: u32,
    blank: Blank,
) -> Result<(Result<(), WriteStop>, MemorySink), NoMemory>
    requires origin { (125 ≤ origin) × (origin < 16384) }
    requires name { blank.name ≡ L.name }
    requires parts { blank.parts ≡ L.parts }
    requires shared { 0 < blank.parts }
{
    let mut sink = sink_of(alloc)?;
    let mut room = ChainRoom::new(alloc, left)?;
    let mut reader = RowReader::new(alloc, table)?;
    if let Err(stop) = reader.read(page, LEAF, origin) {
        return Ok((Err(stop), sink));
    }
    let row = reader.row(page, LEAF);
    let mut source = ChangingPages::new(file, ByteList::new(alloc), 100);
    let answer = put::<L>(&mut source, &mut sink, &row, &mut room, blank);
    Ok((answer, sink))
}

/// Whether it ended as it was to, with the line of these values.
fn is_put(answer: Result<(), WriteStop>, line: &[u8], values: Result<&[u8], WriteStop>) -> bool {
    match values {
        Ok(values) => {
            let rest = line.strip_prefix(b"INSERT INTO `t` VALUES (");
            answer.is_ok() && rest.and_then(|rest| rest.strip_suffix(b");\n")) == Some(values)
        }
        Err(stop) => answer == Err(stop),
    }
}

/// Fails the test if the record of this case gives another line.
fn expect_line(
    rt: &impl Abort,
    alloc: Global,
    table: &Schema,
    page: &mut Page,
    case: &Case,
) -> Result<(), Fail> {
    put_record(rt, page, case);
    let file = chain(rt, alloc, case)?;
    let (answer, sink) = put_one::<Brand>(
        alloc,
        table,
        page,
        ORIGIN,
        file,
        case.left,
        Blank::new(1),
    )?;
    assert!(rt; is_put(answer, sink.bytes(), case.values));
    Ok(())
}

#[test]
fn a_line_is_put(rt: HostRuntime) -> Result<(), Fail> {
    let alloc = rt.alloc();
    let table = Schema::read(alloc, TABLE)?;
    let mut page = Page::zeroed(alloc)?;
    for case in &[SHORT, NULL, LONG, CUT] {
        expect_line(&rt, alloc, &table, &mut page, case)?;
    }
    Ok(())
}
