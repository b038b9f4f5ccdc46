//! The parts of a packed page.

ghost use Rattle.std.specs.Prelude.{◌≡◌, ◌+◌, ◌*◌, ◌<◌, ◌≤◌, length, flat_map};
ghost use Rattle.page_source.specs.Pages.{be_bytes, with_bytes};
ghost use Rattle.page_packer.specs.Packing.{slots_for, next_between, segment_header, head_bytes, page_beside, owned_at};
ghost use Rattle.page_packer.specs.Packing.{owned_by_supremum, status_on};

use crate::packer::Heads;
use compact_record::layout::HEAP_START;
use index_page::layout::{INFIMUM, SUPREMUM};
use page_source::{PAGE_SIZE, Page, write_be};

/// The status of the records of a level: rows on the leaves, node pointers above.
pub(crate) fn status_on(level: u16) -> u8
    ensures value { result ≡ status_on level }
    ensures known { result < 2 }
{
    if level == 0 { 0 } else { 1 }
}

/// How many directory slots so many records take: one for the infimum, and one for each four others, the supremum
/// counted, at least one.
pub(crate) fn slots_for(count: usize) -> usize
    requires { count ≤ 65536 }
    ensures value { result ≡ slots_for count }
    ensures within { result < 65536 }
{
    let fourths = (count + 1) / 4;
    1 + if fourths < 1 { 1 } else { fourths }
}

/// The next field that leads from one origin to another, around the end of the page.
#[tactic(auto, unfolding(crate::specs::Packing::next_between))]
pub(crate) fn next_between(from: usize, to: usize) -> u64
    requires from { from ≤ 16384 }
    requires to { to ≤ 16384 }
    ensures value { result ≡ next_between from to }
    ensures fits { result < 65536 }
{
    ((65536 + to - from) % 65536) as u64
}

/// How many records record `k` of so many owns.
#[tactic(auto, unfolding(crate::specs::Packing::owned_at))]
pub(crate) fn owned_at(count: usize, k: usize) -> u8
    requires count { count ≤ 4096 }
    requires k { k < 4096 }
    ensures value { result ≡ owned_at count k }
    ensures few { result ≤ 4 }
{
    if (k + 1) % 4 == 0 && k < 4 * (slots_for(count) - 2) {
        4
    } else {
        0
    }
}

/// How many records the supremum owns, with itself.
#[tactic(auto, unfolding(crate::specs::Packing::owned_by_supremum))]
pub(crate) fn owned_by_supremum(count: usize) -> u8
    requires { count ≤ 4096 }
    ensures { result ≡ owned_by_supremum count }
{
    (count + 1 - 4 * (slots_for(count) - 2)) as u8
}

/// Writes numbers of two bytes, one after another, and answers where they end.
pub(crate) fn put_numbers(page: &mut Page, at: usize, numbers: &[u16]) -> usize
    requires { at + 2 * length numbers.now ≤ 16384 }
    ensures page { page.new ≡ with_bytes page.old at (flat_map (be_bytes 2) numbers.now) }
    ensures end { result ≡ at + 2 * length numbers.now }
{
    prove!(page.bytes().len() == PAGE_SIZE);
    let mut end = at;
    for i in 0..numbers.len() {
        write_be::<2>(page, end, u64::from(numbers[i]));
        end += 2;
    }
    end
}

/// Writes a segment header.
fn put_segment(page: &mut Page, at: usize, space: u32, number: u32, offset: u16)
    requires { at + 10 ≤ 16384 }
    ensures { page.new ≡ with_bytes page.old at (segment_header space number offset) }
{
    prove!(page.bytes().len() == PAGE_SIZE);
    write_be::<4>(page, at, u64::from(space));
    write_be::<4>(page, at + 4, u64::from(number));
    write_be::<2>(page, at + 8, u64::from(offset));
}

/// Writes the two segment headers of a root, and zeros elsewhere.
pub(crate) fn put_heads(page: &mut Page, heads: Option<Heads>)
    ensures { page.new ≡ with_bytes page.old 74 (head_bytes heads) }
{
    prove!(page.bytes().len() == PAGE_SIZE);
    match heads {
        None => page.put_bytes(74, &[0; 20]),
        Some(heads) => {
            put_segment(page, 74, heads.space, heads.page, heads.leaf);
            put_segment(page, 84, heads.space, heads.page, heads.top);
        }
    }
}

/// Makes the page one of zeros, but for its neighbours.
#[tactic(auto, unfolding(crate::specs::Packing::page_beside))]
pub(crate) fn put_neighbours(page: &mut Page, prev: u32, next: u32)
    ensures { page.new ≡ page_beside prev next }
{
    page.clear();
    prove!(page.bytes().len() == PAGE_SIZE);
    write_be::<4>(page, 8, u64::from(prev));
    write_be::<4>(page, 12, u64::from(next));
}
