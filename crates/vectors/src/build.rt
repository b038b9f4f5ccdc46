//! The bytes of the files.

ghost use Rattle.std.specs.Prelude.{◌≡◌, ◌*◌, length, IfOk};
ghost use Rattle.vectors.specs.Sizes.{pages_of};

use crate::pieces::{NO_RECORDS, Piece};
use crate::plan::{INDEX, Plan, Which, plan_of};
use fil_frame::{page_sum, seal};
use page_source::{ByteList, NoMemory, PAGE_SIZE, Page, read_be, write_be};
use std::alloc::Global;

/// The space id of the files, and the LSN of each of their pages.
const SPACE: u32 = 23;

const LSN: u64 = 0x1_0000_2F1C;

/// The bytes of the file.
pub fn file(alloc: Global, which: Which) -> Result<ByteList, NoMemory>
    ensures { IfOk result (λ file. length file ≡ 16384 * pages_of which) }
{
    edited(alloc, which, &[])
}

/// The bytes of the file with these edits. Each page that one of them is put on gets right checksums of the kind
/// `crc32`, and the end of its LSN; a piece that fits on no page of the file is left out.
pub fn edited(alloc: Global, which: Which, edits: &[&[Piece<'_>]]) -> Result<ByteList, NoMemory>
    ensures { IfOk result (λ file. length file ≡ 16384 * pages_of which) }
{
    let plan = plan_of(which);
    let mut file = ByteList::new(alloc);
    let mut page = Page::zeroed(alloc)?;
    for n in 0..plan.pages {
        put_page(&mut page, n, &plan);
        if put_parts(&mut page, n, edits) {
            put_sums(&mut page);
        }
        file.extend(page.bytes())?;
    }
    Ok(file)
}

/// Writes page `n` of a file.
fn put_page(page: &mut Page, n: u32, plan: &Plan) {
    page.clear();
    let kind = plan.kinds.get(n as usize).copied().unwrap_or(0);
    if kind == INDEX {
        for (at, bytes) in NO_RECORDS {
            put(page, at, bytes);
        }
    }
    put_parts(page, n, plan.parts);
    if kind != 0 {
        seal(page, n, SPACE, LSN, kind);
    }
}

/// Puts the pieces of page `n`, and answers whether there is one.
fn put_parts(page: &mut Page, n: u32, parts: &[&[Piece<'_>]]) -> bool {
    let mut any = false;
    for pieces in parts {
        for (number, at, bytes) in *pieces {
            if *number == n {
                any = put(page, *at, bytes) || any;
            }
        }
    }
    any
}

/// Puts the bytes where they fit, and answers whether they do.
fn put(page: &mut Page, at: usize, bytes: &[u8]) -> bool {
    let fits = at <= PAGE_SIZE && bytes.len() <= PAGE_SIZE - at;
    if fits {
        page.put_bytes(at, bytes);
    }
    fits
}

/// Makes the checksums of a page right, and the end of its LSN.
fn put_sums(page: &mut Page) {
    let low = read_be::<4>(page, 20);
    write_be::<4>(page, 16380, low);
    let sum = u64::from(page_sum(page));
    write_be::<4>(page, 0, sum);
    write_be::<4>(page, 16376, sum);
}
