//! Records as the server lays them out, and ones that it never makes.

ghost use Rattle.std.specs.Prelude.{◌≡◌, ◌≤◌, length, IfOk};
ghost use Rattle.compact_record.specs.Header.{HasHeaderBytes};
ghost use Rattle.compact_record.specs.Keys.{IsWholeReading};
ghost use Rattle.compact_record.specs.Reading.{IsHeapOrigin, key_kinds};

mod lists;
mod placed;
mod records;

use column_values::FieldList;
use compact_record::{
    LocateError, Located, Place, deleted, heap_number, locate, minimum, next_field, next_origin,
    owned, status,
};
use lists::{id_leaf, id_node};
use page_source::{NoMemory, Page};
use records::{RECORDS, Record, Want};
use std::alloc::Global;
use std::cmp::Ordering;
use std::process::Abort;
use std::test::Fail;

/// The letter of a field: whether it is null, or goes on elsewhere.
fn letter(place: &Place) -> u8 {
    if place.null {
        b'n'
    } else if place.external {
        b'x'
    } else {
        b'-'
    }
}

/// Whether the fields begin one where the other ends, the first at the origin, with these letters and ends.
fn are_placed(places: &[Place], origin: usize, letters: &[u8], ends: &[usize]) -> bool {
    let mut at = origin;
    for (k, place) in places.iter().enumerate() {
        let is_here = place.from == at && ends.get(k) == Some(&place.until);
        if !is_here || letters.get(k) != Some(&letter(place)) {
            return false;
        }
        at = place.until;
    }
    places.len() == letters.len() && places.len() == ends.len()
}

/// Whether a record is read so.
fn is_read_as(located: &Located, origin: usize, want: &Want) -> bool {
    let (start, letters, ends) = *want;
    are_placed(located.places(), origin, letters, ends)
        && located.start() == start
        && ends.last() == Some(&located.end())
}

/// Whether a record is found where it is to be found, and else refused.
fn is_found(found: &Result<Located, LocateError>, origin: usize, want: &Option<Want>) -> bool {
    match found {
        Ok(located) => match want {
            Some(want) => is_read_as(located, origin, want),
            None => false,
        },
        Err(error) => want.is_none() && *error == LocateError::BadRecord,
    }
}

/// Puts the bytes below the header of a record on an empty page.
fn put_below(rt: &impl Abort, page: &mut Page, origin: usize, below: &[u8])
    ensures { IsHeapOrigin origin }
{
    assert!(rt; 125 <= origin && origin <= 16384 && below.len() <= 4);
    page.clear();
    page.put_bytes(origin - 5 - below.len(), below);
}

/// Whether a record is read as it is to be.
fn is_read(
    rt: &impl Abort,
    alloc: Global,
    page: &mut Page,
    record: &Record,
) -> Result<bool, NoMemory> {
    let (shape, origin, below, want) = record;
    let fields = shape.fields(alloc)?;
    put_below(rt, page, *origin, below);
    let found = locate(alloc, page, *origin, &fields);
    Ok(is_found(&found, *origin, want))
}

/// Fails the test where a record is read otherwise.
fn expect_read(
    rt: &impl Abort,
    alloc: Global,
    page: &mut Page,
    record: &Record,
) -> Result<(), NoMemory> {
    let (_, origin, below, _) = record;
    let is_read = is_read(rt, alloc, page, record)?;
    assert!(rt; is_read, "{origin} {below:?}");
    Ok(())
}

#[test]
fn reads_records(rt: HostRuntime) -> Result<(), Fail> {
    let mut page = Page::zeroed(rt.alloc())?;
    for record in &RECORDS {
        expect_read(&rt, rt.alloc(), &mut page, record)?;
    }
    Ok(())
}

/// The record at this origin, with a whole number as its key.
fn read_key(
    rt: &impl Abort,
    alloc: Global,
    page: &Page,
    origin: usize,
    fields: &FieldList,
) -> Result<Located, NoMemory>
    requires origin { IsHeapOrigin origin }
    requires room { length fields.now.fields ≤ 3 }
    ensures { IfOk result (λ located. IsWholeReading page.now fields.now located) }
{
    let mut located = Located::with_room(alloc, 3)?;
    let read = located.again(page, origin, fields);
    assert!(rt; read);
    assert!(rt; located.end() <= 16384);
    Ok(located)
}

/// Rows with the keys 5 and 7, at the bytes 125 and 147.
fn leaf_page(alloc: Global) -> Result<Page, NoMemory> {
    let mut leaf = Page::zeroed(alloc)?;
    leaf.put_bytes(125, b"\x80\0\0\x05");
    leaf.put_bytes(147, b"\x80\0\0\x07");
    Ok(leaf)
}

/// A node pointer with the key 6, at byte 125.
fn node_page(alloc: Global) -> Result<Page, NoMemory> {
    let mut node = Page::zeroed(alloc)?;
    node.put_bytes(125, b"\x80\0\0\x06\0\x01\0\x02");
    Ok(node)
}

/// The orders of the keys of both rows and of the pointer's own against the pointer's.
fn orders(
    rt: &impl Abort,
    alloc: Global,
    rows: &FieldList,
    pointer: &Located,
    node: &Page,
    pointers: &FieldList,
) -> Result<[Ordering; 3], NoMemory>
    requires rows { length rows.now.fields ≡ 3 }
    requires few { rows.now.keys ≡ 1 }
    requires pointers { length pointers.now.fields ≡ 2 }
    requires other_few { pointers.now.keys ≡ 1 }
    requires kinds { key_kinds pointers.now ≡ key_kinds rows.now }
    requires read { IsWholeReading node.now pointers.now pointer.now }
{
    let leaf = leaf_page(alloc)?;
    let first = read_key(rt, alloc, &leaf, 125, rows)?;
    let second = read_key(rt, alloc, &leaf, 147, rows)?;
    Ok([
        first.compare_keys(&leaf, rows, pointer, node, pointers),
        second.compare_keys(&leaf, rows, pointer, node, pointers),
        pointer.compare_keys(node, pointers, pointer, node, pointers),
    ])
}

#[test]
fn reads_pointers(rt: HostRuntime) -> Result<(), Fail> {
    let node = node_page(rt.alloc())?;
    let rows = id_leaf(rt.alloc())?;
    let pointers = id_node(rt.alloc())?;
    let pointer = read_key(&rt, rt.alloc(), &node, 125, &pointers)?;
    assert!(rt; pointer.child(&node, &pointers) == 65538);
    let found = orders(&rt, rt.alloc(), &rows, &pointer, &node, &pointers)?;
    assert!(rt; found == [Ordering::Less, Ordering::Greater, Ordering::Equal]);
    Ok(())
}

/// The header's fields: the next field and origin, the heap number, the status, how many records it owns, and the
/// marks for a deleted record and for the least one.
type Header = (u16, usize, u16, u8, u8, bool, bool);

fn header(page: &Page, origin: usize) -> Header
    requires { HasHeaderBytes origin }
{
    (
        next_field(page, origin),
        next_origin(page, origin),
        heap_number(page, origin),
        status(page, origin),
        owned(page, origin),
        deleted(page, origin),
        minimum(page, origin),
    )
}

#[test]
fn reads_headers(rt: HostRuntime) -> Result<(), Fail> {
    let cases: [(usize, [u8; 5], Header); 4] = [
        (
            147,
            [0x24, 0, 0x18, 0, 0x16],
            (22, 169, 3, 0, 4, true, false),
        ),
        // A next field that leads around the end of the page, and one to its first byte.
        (
            16384,
            [0xFF, 0xFF, 0xFF, 0xFF, 0xFF],
            (65535, 16383, 8191, 7, 15, true, true),
        ),
        (
            200,
            [0xC0, 0, 0, 0x3F, 0x38],
            (16184, 0, 0, 0, 0, false, false),
        ),
        (5, [0; 5], (0, 0, 0, 0, 0, false, false)),
    ];
    let mut page = Page::zeroed(rt.alloc())?;
    for (origin, bytes, want) in cases {
        assert!(rt; 5 <= origin && origin <= 16384);
        page.put_bytes(origin - 5, &bytes);
        assert!(rt; header(&page, origin) == want, "{bytes:?}");
    }
    Ok(())
}
