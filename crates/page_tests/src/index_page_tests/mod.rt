//! A page as the server writes it. Its edits stand in lines of the crate `cases`.

mod pages;

ghost use Rattle.std.specs.Prelude.{◌≡◌, ◌≤◌, length, true, IfOk, IsNone};
ghost use Rattle.index_page.specs.Header.{records_of};
ghost use Rattle.index_page.specs.Page.{IsIndexPage};

use column_values::{ColumnType, Field, FieldList, FieldType};
use index_page::{Records, Scratch, mark_fault, next_record, page_fault};
use page_source::{NoMemory, Page, Rule};
use pages::Piece;
use std::alloc::Global;
use std::process::Abort;
use std::test::Fail;

/// Room for the records of all pages here.
const MEMBERS: u32 = 5;

fn put_pieces(rt: &impl Abort, page: &mut Page, pieces: &[Piece]) {
    for (at, bytes) in pieces {
        assert!(rt; *at <= 16384 && bytes.len() <= 16384 - *at);
        page.put_bytes(*at, bytes);
    }
}

const ID: Field = Field {
    kind: FieldType::Column(ColumnType::Int {
        width: 4,
        signed: true,
    }),
    nullable: false,
    may_leave: false,
};

const TRX_ID: Field = Field {
    kind: FieldType::TrxId,
    nullable: false,
    may_leave: false,
};

const ROLL_POINTER: Field = Field {
    kind: FieldType::RollPointer,
    nullable: false,
    may_leave: false,
};

/// The fields of a row of a table with the key `id int`.
pub(crate) fn rows(alloc: Global) -> Result<FieldList, NoMemory>
    ensures { IfOk result (λ list. (list.keys ≡ 1) × (length list.fields ≡ 3)) }
{
    let mut fields = FieldList::new(alloc, 0, 1);
    fields.push(ID)?;
    fields.push(TRX_ID)?;
    fields.push(ROLL_POINTER)?;
    Ok(fields)
}

/// The rule that the page breaks first, that of the minimum mark behind the others.
fn rule_of(scratch: &mut Scratch, page: &Page, fields: &FieldList) -> Option<Rule>
    requires few { fields.now.keys ≤ length fields.now.fields }
    requires room { length fields.now.fields ≤ scratch.old }
    ensures { IsNone result → IsIndexPage page.now fields.now true true true (records_of page.now) }
{
    match page_fault(scratch, page, fields, true, true, true) {
        None => {
            if mark_fault(page, true, true) {
                Some(Rule::MinimumMark)
            } else {
                None
            }
        }
        broken => broken,
    }
}

/// The records of a page that breaks no rule, or the rule that it breaks first.
fn records_of(
    alloc: Global,
    page: &Page,
    fields: &FieldList,
) -> Result<Result<Records, Rule>, NoMemory>
    requires few { fields.now.keys ≤ length fields.now.fields }
    requires room { length fields.now.fields ≤ 5 }
{
    let mut scratch = Scratch::new(alloc, MEMBERS)?;
    if let Some(rule) = rule_of(&mut scratch, page, fields) {
        return Ok(Err(rule));
    }
    Ok(Ok(Records::of(alloc, page, fields)?))
}

/// A page of three rows.
pub(crate) fn three_rows(rt: &impl Abort, alloc: Global) -> Result<Page, NoMemory> {
    let mut page = Page::zeroed(alloc)?;
    put_pieces(rt, &mut page, &pages::THREE_ROWS);
    Ok(page)
}

/// A page of three rows, of which the second is free.
fn two_rows(rt: &impl Abort, alloc: Global) -> Result<Page, NoMemory> {
    let mut page = three_rows(rt, alloc)?;
    put_pieces(rt, &mut page, &pages::SECOND_FREE);
    Ok(page)
}

#[test]
fn reads_records(rt: HostRuntime) -> Result<(), Fail> {
    let page = two_rows(&rt, rt.alloc())?;
    let fields = rows(rt.alloc())?;
    let Ok(records) = records_of(rt.alloc(), &page, &fields)? else {
        return Err(Fail::from("a rule is broken"));
    };
    assert!(rt; records.items().len() == 2);
    for (record, want) in records.items().iter().zip([(120, 142), (164, 186)]) {
        assert!(rt; (record.start(), record.end()) == want && record.places().len() == 3);
    }
    Ok(())
}

#[test]
fn goes_from_record_to_record(rt: HostRuntime) -> Result<(), Fail> {
    let mut page = two_rows(&rt, rt.alloc())?;
    for (origin, next) in [(99, Some(125)), (125, Some(169)), (169, None), (147, None)] {
        assert!(rt; next_record(&page, origin) == next, "{origin}");
    }
    // A way to the first byte of the page is one, and leads to no record.
    page.put_bytes(145, &[0x3F, 0x6D]);
    assert!(rt; next_record(&page, 147) == Some(0));
    Ok(())
}

/// The first row has the mark of the least pointer, and then the supremum owns one record less too.
#[test]
fn names_a_broken_rule(rt: HostRuntime) -> Result<(), Fail> {
    let fields = rows(rt.alloc())?;
    let mut page = three_rows(&rt, rt.alloc())?;
    for (at, byte, rule) in [(120, 0x10, Rule::MinimumMark), (107, 3, Rule::Directory)] {
        page.put_bytes(at, &[byte]);
        assert!(rt; records_of(rt.alloc(), &page, &fields)?.err() == Some(rule));
    }
    Ok(())
}
