//! The page of the pushed records, written part by part.

ghost use Rattle.std.specs.Prelude.{◌≡◌, ◌-◌, ◌*◌, ◌<◌, ◌≤◌, length};
ghost use Rattle.page_source.specs.Pages.{with_bytes};
ghost use Rattle.page_packer.specs.Packing.{slots_for, next_of_record, page_header, end_bytes, origin_at, slot_origin};
ghost use Rattle.page_packer.specs.Packing.{start_of, pushed_at, linked_bytes, heap_bytes, directory_bytes};
ghost use Rattle.page_packer.specs.Packing.{packed_page};
ghost use Rattle.page_packer.specs.Laws.{HoldsPushed};

use crate::packer::{Heads, Packer};
use crate::parts::{
    next_between, owned_at, owned_by_supremum, put_heads, put_neighbours, put_numbers, slots_for,
};
use compact_record::layout::HEAP_START;
use index_page::layout::{COMPACT_BIT, DIRECTORY_END, INDEX_ID, INFIMUM, SLOT_COUNT, SUPREMUM};
use page_source::{PAGE_SIZE, Page, write_be};

impl Packer {
    /// The origin of record `k`; behind the last one stands the supremum.
    fn origin_at(&self, k: usize) -> usize
        ensures value { result ≡ origin_at self.now.records k }
        ensures within { result ≤ 16384 }
    {
        if k < self.count() {
            self.spot(k).origin as usize
        } else {
            SUPREMUM
        }
    }

    /// The next field of record `k`.
    fn next_at(&self, k: usize) -> u64
        requires { k < length self.now.records }
        ensures value { result ≡ next_of_record self.now.records k }
        ensures fits { result < 65536 }
    {
        prove!(k < self.count());
        next_between(self.origin_at(k), self.origin_at(k + 1))
    }

    /// What a directory slot names.
    fn slot_origin(&self, slot: usize) -> usize
        requires { slot < slots_for (length self.now.records) }
        ensures value { result ≡ slot_origin self.now.records slot }
        ensures within { result ≤ 16384 }
    {
        let slots = slots_for(self.count());
        if slot == 0 {
            INFIMUM
        } else if slot + 1 == slots {
            SUPREMUM
        } else {
            self.origin_at(4 * slot - 1)
        }
    }

    /// Gives record `k`, which stands on the page as it was pushed, its owner count and its next field.
    fn link_record(&self, page: &mut Page, k: usize)
        requires within { k < length self.now.records }
        requires stands { page.old ≡ with_bytes page.old
            (start_of self.now.records k)
            (pushed_at self.now.records k).bytes }
        ensures { page.new ≡ with_bytes page.old (start_of self.now.records k) (linked_bytes self.now.records k) }
    {
        prove!(page.bytes().len() == PAGE_SIZE);
        let spot = self.spot(k);
        let origin = spot.origin as usize;
        let info = page.bytes()[origin - 5] + owned_at(self.count(), k);
        let next = self.next_at(k);
        page.put_bytes(origin - 5, &[info]);
        write_be::<2>(page, origin - 2, next);
    }

    /// Writes all records, one after another.
    fn put_records(&self, page: &mut Page)
        ensures { page.new ≡ with_bytes page.old 120 (heap_bytes self.now.records) }
    {
        prove!(page.bytes().len() == PAGE_SIZE);
        prove!(self.top() <= PAGE_SIZE);
        page.put_bytes(HEAP_START, self.heap());
        for k in 0..self.count() {
            self.link_record(page, k);
        }
    }

    /// Writes the directory, its last slot first.
    fn put_directory(&self, page: &mut Page)
        ensures { page.new ≡ with_bytes page.old
            (16376 - 2 * slots_for (length self.now.records))
            (directory_bytes self.now.records) }
    {
        prove!(page.bytes().len() == PAGE_SIZE);
        let slots = slots_for(self.count());
        let start = DIRECTORY_END - 2 * slots;
        for j in 0..slots {
            let origin = self.slot_origin(slots - 1 - j);
            write_be::<2>(page, start + 2 * j, origin as u64);
        }
    }

    /// Writes the page header.
    fn put_header(&self, page: &mut Page, index_id: u64, heads: Option<Heads>)
        ensures { page.new ≡ with_bytes page.old 38 (page_header self.now index_id heads) }
    {
        prove!(page.bytes().len() == PAGE_SIZE);
        let slots = slots_for(self.count()) as u16;
        let count = self.count() as u16;
        let top = self.top() as u16;
        put_numbers(
            page,
            SLOT_COUNT,
            &[
                slots,
                top,
                COMPACT_BIT as u16 + (count + 2),
                0,
                0,
                0,
                5,
                0,
                count,
                0,
                0,
                0,
                0,
                self.level(),
            ],
        );
        write_be::<8>(page, INDEX_ID, index_id);
        put_heads(page, heads);
    }

    /// Writes infimum and supremum.
    fn put_ends(&self, page: &mut Page)
        ensures { page.new ≡ with_bytes page.old 94 (end_bytes self.now.records) }
    {
        prove!(page.bytes().len() == PAGE_SIZE);
        let next = next_between(INFIMUM, self.origin_at(0));
        let owned = owned_by_supremum(self.count());
        page.put_bytes(94, &[1, 0, 2]);
        write_be::<2>(page, 97, next);
        page.put_bytes(99, b"infimum\0");
        page.put_bytes(107, &[owned, 0, 11, 0, 0]);
        page.put_bytes(112, b"supremum");
    }

    /// Makes `page` the page of the pushed records, with these neighbours, this index id and these segment headers. Its
    /// frame isn't made yet. It is an index page if the records are entries of one field list whose keys rise.
    pub fn finish(
        &mut self,
        prev: u32,
        next: u32,
        index_id: u64,
        heads: Option<Heads>,
        page: &mut Page,
    )
        ensures page { page.new ≡ packed_page self.old prev next index_id heads }
        ensures holds { HoldsPushed self.old page.new }
        ensures same { self.new ≡ self.old }
    {
        prove!(self.top() <= PAGE_SIZE);
        prove!(self.count() <= PAGE_SIZE);
        put_neighbours(page, prev, next);
        self.put_header(page, index_id, heads);
        self.put_ends(page);
        self.put_records(page);
        self.put_directory(page);
    }
}
