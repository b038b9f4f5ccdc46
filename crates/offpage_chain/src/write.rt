//! Writes a value to pages of its own, part by part (btr0cur).

ghost use Rattle.std.specs.Prelude.{◌≡◌, ◌*◌, ◌<◌, ◌≤◌, length, replicate};
ghost use Rattle.page_source.specs.Pages.{fil_null, with_bytes};
ghost use Rattle.page_source.specs.Lists.{AreDistinct, after_place};
ghost use Rattle.offpage_chain.specs.ValuePage.{pages_for, blob_part, part_body, value_page};
ghost use Rattle.offpage_chain.specs.Writing.{AreBelow, WritesValue};

use crate::layout::{LONGEST_PART, PART_START};
use crate::part::{NEXT_PART, PART_LENGTH};
use fil_frame::kinds::FIL_PAGE_TYPE_BLOB;
use fil_frame::seal;
use page_source::{FIL_NULL, Failed, Page, PageStore, write_be};

/// The LSN of each page.
const LSN: u64 = 1;

/// Puts the bytes into the store, each part on the page with the next of these numbers. After
/// `Failed` nothing is said of the pages with these numbers. All other pages stay.
pub fn write_chain<T: PageStore>(
    store: &mut T,
    space: u32,
    numbers: &[u32],
    bytes: &[u8],
    page: &mut Page,
) -> Result<(), Failed>
    requires count { length numbers.now ≡ pages_for (length bytes.now) }
    requires distinct { AreDistinct numbers.now }
    requires below { AreBelow T.PageStore store.old numbers.now }
    ensures { WritesValue T.PageStore store.old store.new space numbers.now bytes.now result }
{
    for k in 0..numbers.len() {
        put_part_page(page, space, numbers, bytes, k);
        store.put(numbers[k], page)?;
    }
    Ok(())
}

/// Makes a page that of part `k` of the bytes.
fn put_part_page(page: &mut Page, space: u32, numbers: &[u32], bytes: &[u8], k: usize)
    requires count { length numbers.now ≡ pages_for (length bytes.now) }
    requires inside { k < length numbers.now }
    ensures { page.new ≡ value_page space numbers.now bytes.now k }
{
    let part = part_of(bytes, k);
    put_part(page, next_of(numbers, k), part);
    seal(page, numbers[k], space, LSN, FIL_PAGE_TYPE_BLOB);
}

/// Part `k` of the bytes.
fn part_of(bytes: &[u8], k: usize) -> &[u8]
    requires { LONGEST_PART * k ≤ length bytes.now }
    ensures { result.now ≡ blob_part bytes.now k }
{
    let rest = &bytes[LONGEST_PART as usize * k..];
    &rest[..rest.len().min(LONGEST_PART as usize)]
}

/// The number of the page behind page `k`.
fn next_of(numbers: &[u32], k: usize) -> u32
    requires { k < length numbers.now }
    ensures { result ≡ after_place fil_null numbers.now k }
{
    if k + 1 < numbers.len() {
        numbers[k + 1]
    } else {
        FIL_NULL
    }
}

/// Makes the page all zeros but for this part behind its header.
fn put_part(page: &mut Page, next: u32, part: &[u8])
    requires { length part.now ≤ LONGEST_PART }
    ensures { page.new ≡ with_bytes (replicate 16384 0) 38 (part_body part.now next) }
{
    page.clear();
    write_be::<4>(page, PART_LENGTH, part.len() as u64);
    write_be::<4>(page, NEXT_PART, u64::from(next));
    page.put_bytes(PART_START, part);
}
