//! Pages of a table with a key and a note.

ghost use Rattle.std.specs.Prelude.{◌≡◌, [], ◌∷◌, IfOk, true, false};
ghost use Rattle.compact_record.specs.declared.parts.Part.TheVariants.{Null, Bytes};
ghost use Rattle.compact_record.specs.Writing.{FitFields};

use column_values::{ColumnType, Field, FieldList, FieldType};
use compact_record::{Parts, record_size};
use index_page::{Scratch, page_fault};
use page_packer::{Heads, Packer};
use page_source::{NoMemory, Page};
use std::alloc::Global;
use std::process::Abort;
use std::test::Fail;

/// `id int unsigned notnull`, the key.
const ID: Field = Field {
    kind: FieldType::Column(ColumnType::Int {
        width: 4,
        signed: false,
    }),
    nullable: false,
    may_leave: false,
};

/// `note varchar 20 null`.
const NOTE: Field = Field {
    kind: FieldType::Column(ColumnType::Varchar { n: 20 }),
    nullable: true,
    may_leave: false,
};

fn fields(alloc: Global) -> Result<FieldList, NoMemory>
    ensures { IfOk result (λ list. list ≡ record { fields = ID ∷ NOTE ∷ []; nullable = 1; keys = 1 }) }
{
    let mut list = FieldList::new(alloc, 1, 1);
    list.push(ID)?;
    list.push(NOTE)?;
    Ok(list)
}

/// A row with this key, by its two low bytes, and no note.
fn bare(alloc: Global, high: u8, low: u8) -> Result<Parts, NoMemory>
    ensures { IfOk result (λ parts. parts ≡ Bytes (0 ∷ 0 ∷ high ∷ low ∷ []) false ∷ Null ∷ []) }
{
    let mut parts = Parts::new(alloc);
    parts.push(&[0, 0, high, low], false)?;
    parts.push_null()?;
    Ok(parts)
}

/// A row with this key, and `ab` as its note.
fn noted(alloc: Global, id: u8) -> Result<Parts, NoMemory>
    ensures { IfOk result (λ parts. parts ≡ Bytes (0 ∷ 0 ∷ 0 ∷ id ∷ []) false ∷ Bytes (97 ∷ 98 ∷ []) false ∷ []) }
{
    let mut parts = Parts::new(alloc);
    parts.push(&[0, 0, 0, id], false)?;
    parts.push(&[97, 98], false)?;
    Ok(parts)
}

fn push(rt: &impl Abort, packer: &mut Packer, fields: &FieldList, parts: &Parts)
    requires { FitFields fields.now parts.now }
{
    let fits = packer.fits(record_size(fields, parts));
    assert!(rt; fits);
    packer.push(fields, parts, false);
}

/// Whether a packed page keeps all rules.
fn keeps_rules(rt: &impl Abort, scratch: &mut Scratch, page: &Page, fields: &FieldList) -> bool
    requires { scratch.old ≡ 2 }
{
    assert!(rt; fields.keys() as usize <= fields.fields().len());
    assert!(rt; fields.fields().len() <= 2);
    page_fault(scratch, page, fields, true, true, true).is_none()
}

/// A root of two rows, between other pages.
fn two_rows(rt: &impl Abort, alloc: Global, fields: &FieldList) -> Result<Page, NoMemory>
    requires { fields.now ≡ record { fields = ID ∷ NOTE ∷ []; nullable = 1; keys = 1 } }
{
    let mut page = Page::zeroed(alloc)?;
    let first = bare(alloc, 0, 5)?;
    let second = noted(alloc, 6)?;
    let mut packer = Packer::new(alloc)?;
    packer.begin(0);
    push(rt, &mut packer, fields, &first);
    push(rt, &mut packer, fields, &second);
    let heads = Heads {
        space: 1,
        page: 2,
        leaf: 242,
        top: 50,
    };
    packer.finish(0xFFFF_FFFF, 7, 3, Some(heads), &mut page);
    Ok(page)
}

#[test]
fn packs_two_rows(rt: HostRuntime) -> Result<(), Fail> {
    let fields = fields(rt.alloc())?;
    let page = two_rows(&rt, rt.alloc(), &fields)?;
    let mut scratch = Scratch::new(rt.alloc(), 2)?;
    assert!(rt; keeps_rules(&rt, &mut scratch, &page, &fields));
    let pieces: [(usize, &[u8]); 4] = [
        (8, b"\xFF\xFF\xFF\xFF\0\0\0\x07"),
        (
            38,
            b"\0\x02\0\x8F\x80\x04\0\0\0\0\0\0\0\x05\0\0\0\x02\0\0\0\0\0\0\0\0\0\0\0\0\0\0\0\0\0\x03\0\0\0\x01\0\0\0\x02\0\xF2\0\0\0\x01\0\0\0\x02\0\x32",
        ),
        (
            94,
            b"\x01\0\x02\0\x1Binfimum\0\x03\0\x0B\0\0supremum\x01\0\0\x10\0\x0B\0\0\0\x05\x02\0\0\0\x18\xFF\xE7\0\0\0\x06ab\0",
        ),
        (16372, b"\0\x70\0\x63"),
    ];
    for (at, bytes) in pieces {
        assert!(rt;
            at <= 16384 && page.bytes()[at..].starts_with(bytes),
            "at {at}"
        );
    }
    Ok(())
}

/// Rows with the keys 256 times `high` and on, as long as one more fits; answers whether all did.
fn push_many(
    rt: &impl Abort,
    alloc: Global,
    packer: &mut Packer,
    fields: &FieldList,
    high: u8,
) -> Result<bool, NoMemory>
    requires { fields.now ≡ record { fields = ID ∷ NOTE ∷ []; nullable = 1; keys = 1 } }
{
    for low in 0..255 {
        let row = bare(alloc, high, low)?;
        if !packer.fits(record_size(fields, &row)) {
            return Ok(false);
        }
        push(rt, packer, fields, &row);
    }
    Ok(true)
}

/// A root of as many rows as fit.
fn full_page(rt: &impl Abort, alloc: Global, fields: &FieldList) -> Result<Page, NoMemory>
    requires { fields.now ≡ record { fields = ID ∷ NOTE ∷ []; nullable = 1; keys = 1 } }
{
    let mut page = Page::zeroed(alloc)?;
    let mut packer = Packer::new(alloc)?;
    packer.begin(0);
    let mut all = true;
    for high in 0..8 {
        all = push_many(rt, alloc, &mut packer, fields, high)?;
    }
    assert!(rt; !all);
    packer.finish(0xFFFF_FFFF, 0xFFFF_FFFF, 1, None, &mut page);
    Ok(page)
}

#[test]
fn packs_full_page(rt: HostRuntime) -> Result<(), Fail> {
    let fields = fields(rt.alloc())?;
    let page = full_page(&rt, rt.alloc(), &fields)?;
    let mut scratch = Scratch::new(rt.alloc(), 2)?;
    assert!(rt; keeps_rules(&rt, &mut scratch, &page, &fields));
    Ok(())
}
