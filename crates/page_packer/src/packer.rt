//! A page that is filled with records.

ghost use Rattle.std.specs.Prelude.{◌≡◌, ◌+◌, ◌*◌, ◌<◌, ◌≤◌, true, IfOk, length};
ghost use Rattle.compact_record.specs.Writing.{FitFields, size_of_record};
ghost use Rattle.page_packer.specs.Packing.{AreWhole, slots_for, total_size, fits_more, none_packed};
ghost use Rattle.page_packer.specs.Packing.{with_record};
ghost use Rattle.page_packer.specs.Filling.{unlinked_bytes, HasSpot};

use crate::parts::{slots_for, status_on};
use column_values::FieldList;
use compact_record::layout::HEAP_START;
use compact_record::{Parts, place_record};
use index_page::layout::DIRECTORY_END;
use page_source::{NoMemory, PAGE_SIZE, Page};
use std::alloc::Global;
use std::marker::Model;

/// The segment headers of a root.
#[derive(Clone, Copy, Debug, PartialEq, Eq)]
pub struct Heads {
    /// The tablespace of the two inodes.
    pub space: u32,
    /// The page of the two inodes.
    pub page: u32,
    /// The byte where the inode of the leaf segment begins, on the page of the two inodes.
    pub leaf: u16,
    /// The byte where the inode of the segment for the pages above begins, on the page of the two inodes.
    pub top: u16,
}

/// Where a record lies on the page that is filled.
#[derive(Clone, Copy, Debug, PartialEq, Eq)]
pub(crate) struct Spot {
    /// The offset of the record's first byte.
    pub(crate) start: u16,
    /// The offset where the record's fields begin.
    pub(crate) origin: u16,
    /// The offset of the byte behind the record's last.
    pub(crate) end: u16,
}

/// More records than fit one page: each has at least the five bytes of its header.
const MOST_RECORDS: usize = 4096;

/// PAGE_HEAP_NO_USER_LOW, the heap number of the first record.
const FIRST_NUMBER: usize = 2;

/// A page that is filled with records. It is seen as its level and the records that were pushed, each as its bytes
/// with the place of its origin among them.
#[derive(Debug, Drop)]
pub struct Packer {
    page: Page,
    spots: Vec<Spot>,
    level: u16,
    count: usize,
    top: usize,
}

impl Model for Packer {
    ghost use Rattle.std.specs.Prelude.{take};
    ghost use Rattle.page_packer.specs.Packing.{Packing};
    ghost use Rattle.page_packer.specs.Filling.{pushed_in, IsFilled};

    ghost Value = { Packing };

    ghost view = { λ p. record { level = p.level; records = pushed_in p.page (take p.count p.spots.items) } };

    ghost invariant = { λ p. IsFilled p.page p.spots.items p.count p.top };
}

impl Packer {
    /// Room for the records of one page, and none pushed yet.
    pub fn new(alloc: Global) -> Result<Packer, NoMemory>
        ensures { IfOk result (λ packer. packer ≡ none_packed 0) }
    {
        let none = Spot {
            start: 0,
            origin: 0,
            end: 0,
        };
        Ok(Packer {
            page: Page::zeroed(alloc)?,
            spots: Vec::from_elem(alloc, none, MOST_RECORDS)?,
            level: 0,
            count: 0,
            top: HEAP_START,
        })
    }

    /// Begins a page of this level.
    pub fn begin(&mut self, level: u16)
        ensures { self.new ≡ none_packed level }
    {
        self.level = level;
        self.count = 0;
        self.top = HEAP_START;
    }

    /// Whether one more record of this size fits.
    pub fn fits(&self, size: usize) -> bool
        ensures { result ≡ fits_more self.now size }
    {
        size <= PAGE_SIZE && self.top + size + 2 * slots_for(self.count + 1) <= DIRECTORY_END
    }

    /// Adds the record of these parts, at the end.
    pub fn push(&mut self, fields: &FieldList, parts: &Parts, minimum: bool)
        requires fit { FitFields fields.now parts.now }
        requires room { fits_more self.old (size_of_record fields.now parts.now) ≡ true }
        ensures { self.new ≡ with_record self.old fields.now parts.now minimum }
    {
        prove!(self.page.bytes().len() == PAGE_SIZE);
        let at = self.top;
        let heap = (FIRST_NUMBER + self.count) as u16;
        let kind = status_on(self.level);
        let placed = place_record(&mut self.page, at, fields, parts, heap, kind, minimum);
        self.spots[self.count] = Spot {
            start: at as u16,
            origin: placed.origin as u16,
            end: placed.end as u16,
        };
        self.count += 1;
        self.top = placed.end;
    }

    /// How many records were pushed.
    pub(crate) fn count(&self) -> usize
        ensures value { result ≡ length self.now.records }
        ensures few { result < 4096 }
        ensures whole { AreWhole self.now.records }
    {
        prove!(self.page.bytes().len() == PAGE_SIZE);
        self.count
    }

    /// The heap top.
    pub(crate) fn top(&self) -> usize
        ensures value { result ≡ 120 + total_size self.now.records }
        ensures fits { result + 2 * slots_for (length self.now.records) ≤ 16376 }
    {
        self.top
    }

    /// The level.
    pub(crate) fn level(&self) -> u16
        ensures { result ≡ self.now.level }
    {
        self.level
    }

    /// Where record `k` lies.
    pub(crate) fn spot(&self, k: usize) -> Spot
        requires { k < length self.now.records }
        ensures { HasSpot self.now.records k result }
    {
        prove!(self.page.bytes().len() == PAGE_SIZE);
        self.spots[k]
    }

    /// The bytes of all records, one after another.
    pub(crate) fn heap(&self) -> &[u8]
        ensures value { result.now ≡ unlinked_bytes self.now.records }
        ensures size { length result.now ≡ total_size self.now.records }
    {
        &self.page.bytes()[HEAP_START..self.top]
    }
}
