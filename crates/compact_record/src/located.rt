//! A record that was read, in memory that is used again and again.

ghost use Rattle.std.specs.Prelude.{◌≡◌, ◌≤◌, ◌↔◌, All, IsTrue, IfOk, IsErrOf, length};
ghost use Rattle.column_values.specs.Order.{key_cmp};
ghost use Rattle.compact_record.specs.Reading.{IsHeapOrigin, IsSpelled, IsReading, key_of, key_kinds};
ghost use Rattle.compact_record.specs.Keys.{IsWholeReading, HaveChild, LiesBelow, child_at};

use crate::errors::LocateError;
use crate::keys::compare_keys;
use crate::layout::{HEAP_START, RECORD_HEADER};
use crate::places::{Place, read_places};
use column_values::FieldList;
use page_source::{NoMemory, Page, read_be};
use std::alloc::Global;
use std::cmp::Ordering;
use std::marker::Model;

/// The places of a record's fields, with room for a number of fields.
#[derive(Debug, Drop)]
pub struct Located {
    origin: usize,
    start: usize,
    end: usize,
    places: Vec<Place>,
    count: usize,
}

impl Model for Located {
    ghost use Rattle.std.specs.Prelude.{◌≤◌, take, length};
    ghost use Rattle.compact_record.specs.Reading.{Reading};

    ghost Value = { Reading };

    ghost view = { λ l. record {
      origin = l.origin;
      start = l.start;
      end = l.end;
      places = take l.count l.places.items;
      members = length l.places.items;
    } };

    ghost invariant = { λ l. l.count ≤ length l.places.items };
}

impl Located {
    /// Room for the places of so many fields, and no record read yet.
    pub fn with_room(alloc: Global, members: u32) -> Result<Located, NoMemory>
        ensures { IfOk result (λ l. l.members ≡ members) }
    {
        let none = Place {
            null: true,
            external: false,
            from: 0,
            until: 0,
        };
        Ok(Located {
            origin: 0,
            start: 0,
            end: 0,
            places: Vec::from_elem(alloc, none, members as usize)?,
            count: 0,
        })
    }

    /// Reads the record at this origin, and answers whether its null bits and lengths are spelled as they must be.
    /// The end may lie past the page. After false nothing is said of the places.
    pub fn again(&mut self, page: &Page, origin: usize, fields: &FieldList) -> bool
        requires origin { IsHeapOrigin origin }
        requires room { length fields.now.fields ≤ self.old.members }
        ensures exact { IsTrue result ↔ IsSpelled page.now origin fields.now }
        ensures read { IsTrue result → IsReading page.now origin fields.now self.new }
        ensures lies { IsTrue result → All (LiesBelow self.new.end) self.new.places }
        ensures members { self.new.members ≡ self.old.members }
    {
        let Some(sizes) = read_places(&mut self.places, page, origin, fields) else {
            return false;
        };
        let head = RECORD_HEADER + (fields.nullable() as usize + 7) / 8 + sizes.lengths;
        if HEAP_START + head > origin {
            return false;
        }
        self.origin = origin;
        self.start = origin - head;
        self.end = origin + sizes.local;
        self.count = fields.fields().len();
        true
    }

    /// The offset of the record's first byte on its page.
    pub fn start(&self) -> usize
        ensures { result ≡ self.now.start }
    {
        self.start
    }

    /// The offset of the byte behind its last.
    pub fn end(&self) -> usize
        ensures { result ≡ self.now.end }
    {
        self.end
    }

    /// The places, in field order.
    pub fn places(&self) -> &[Place]
        ensures { result.now ≡ self.now.places }
    {
        &self.places[..self.count]
    }

    /// The order of this record's key against another's, which may stand on another page, and whose fields may be
    /// those of another level of the index.
    pub fn compare_keys(
        &self,
        page: &Page,
        fields: &FieldList,
        other: &Located,
        other_page: &Page,
        other_fields: &FieldList,
    ) -> Ordering
        requires few { fields.now.keys ≤ length fields.now.fields }
        requires other_few { other_fields.now.keys ≤ length other_fields.now.fields }
        requires kinds { key_kinds other_fields.now ≡ key_kinds fields.now }
        requires this { IsWholeReading page.now fields.now self.now }
        requires that { IsWholeReading other_page.now other_fields.now other.now }
        ensures { result ≡ key_cmp (key_kinds fields.now)
            (key_of page.now self.now.origin fields.now)
            (key_of other_page.now other.now.origin other_fields.now) }
    {
        compare_keys(page, fields, self.places(), other_page, other.places())
    }

    /// The number of the page that a node pointer leads to: the four bytes behind its key, big-endian.
    pub fn child(&self, page: &Page, fields: &FieldList) -> u32
        requires pointers { HaveChild fields.now }
        requires this { IsWholeReading page.now fields.now self.now }
        ensures { result ≡ child_at page.now fields.now self.now.origin }
    {
        let place = self.places()[fields.keys() as usize];
        read_be::<4>(page, place.from) as u32
    }
}

/// Reads the record whose fields begin at the byte `origin` of the page. The end may lie past the page. `BadRecord`
/// comes where it isn't spelled as it must be, and `Memory` where there is no room for the places.
pub fn locate(
    alloc: Global,
    page: &Page,
    origin: usize,
    fields: &FieldList,
) -> Result<Located, LocateError>
    requires { IsHeapOrigin origin }
    ensures ok { IfOk result (λ located. IsReading page.now origin fields.now located) }
    ensures members { IfOk result (λ located. located.members ≡ length fields.now.fields) }
    ensures bad { IsErrOf result LocateError.BadRecord → ¬ (IsSpelled page.now origin fields.now) }
{
    let mut located = Located::with_room(alloc, fields.fields().len() as u32)?;
    if located.again(page, origin, fields) {
        Ok(located)
    } else {
        Err(LocateError::BadRecord)
    }
}
