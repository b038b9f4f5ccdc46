//! A record that is written, and read again.

ghost use Rattle.std.specs.Prelude.{◌≡◌, [], ◌∷◌, replicate, IfOk, true, false};
ghost use Rattle.compact_record.specs.declared.parts.Part.TheVariants.{Null, Bytes};

use column_values::{ColumnType, Field, FieldList, FieldType};
use compact_record::{Parts, Place, locate, place, record_size};
use page_source::{NoMemory, Page};
use std::alloc::Global;
use std::process::Abort;
use std::test::Fail;

/// `id int notnull`, the key.
const ID: Field = Field {
    kind: FieldType::Column(ColumnType::Int {
        width: 4,
        signed: true,
    }),
    nullable: false,
    may_leave: false,
};

/// `body text null`, which may go off the page.
const BODY: Field = Field {
    kind: FieldType::Column(ColumnType::Text { n: 65535 }),
    nullable: true,
    may_leave: true,
};

/// `note varchar 300 null`.
const NOTE: Field = Field {
    kind: FieldType::Column(ColumnType::Varchar { n: 300 }),
    nullable: true,
    may_leave: false,
};

fn fields(alloc: Global) -> Result<FieldList, NoMemory>
    ensures { IfOk result
        (λ list. list ≡ record { fields = ID ∷ NOTE ∷ BODY ∷ NOTE ∷ []; nullable = 3; keys = 1 }) }
{
    let mut list = FieldList::new(alloc, 3, 1);
    list.push(ID)?;
    list.push(NOTE)?;
    list.push(BODY)?;
    list.push(NOTE)?;
    Ok(list)
}

/// The key, no note, a body off the page, and a note of 200 letters.
fn parts(alloc: Global) -> Result<Parts, NoMemory>
    ensures { IfOk result (λ parts. parts
        ≡ Bytes (128 ∷ 0 ∷ 0 ∷ 5 ∷ []) false ∷ Null ∷ Bytes (replicate 20 7) true ∷ Bytes (replicate 200 110) false ∷ []) }
{
    let mut parts = Parts::new(alloc);
    parts.push(&[128, 0, 0, 5], false)?;
    parts.push_null()?;
    parts.push(&[7; 20], true)?;
    parts.push(&[110; 200], false)?;
    Ok(parts)
}

/// The page on which the record is placed from byte 120 on, so that its fields begin at byte 130.
fn placed(rt: &impl Abort, alloc: Global, fields: &FieldList) -> Result<Page, NoMemory>
    requires { fields.now ≡ record { fields = ID ∷ NOTE ∷ BODY ∷ NOTE ∷ []; nullable = 3; keys = 1 } }
{
    let parts = parts(alloc)?;
    let mut page = Page::zeroed(alloc)?;
    assert!(rt; record_size(fields, &parts) == 234);
    let origin = place(&mut page, 120, fields, &parts, 2, 1, true);
    assert!(rt; origin == 130);
    Ok(page)
}

/// Fails the test where the fields lie elsewhere.
fn expect_places(rt: &impl Abort, places: &[Place]) {
    assert!(rt; places.len() == 4);
    assert!(rt; (places[1].null, places[2].external, places[3].external) == (true, true, false));
    assert!(rt; (places[2].from, places[3].from, places[3].until) == (134, 154, 354));
}

#[test]
fn reads_what_is_placed(rt: HostRuntime) -> Result<(), Fail> {
    let fields = fields(rt.alloc())?;
    let page = placed(&rt, rt.alloc(), &fields)?;
    let bytes = b"\0\0\xC8\x80\x14\xC0\x01\x10\0\x11\0\0\x80\0\0\x05\x07\x07";
    assert!(rt; page.bytes()[118..].starts_with(bytes));
    let located = locate(rt.alloc(), &page, 130, &fields)?;
    assert!(rt; (located.start(), located.end()) == (120, 354));
    expect_places(&rt, located.places());
    Ok(())
}
