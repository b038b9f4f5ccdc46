//! The fields of the frame, and the two checksums of a page (buf0checksum).

ghost use Rattle.std.specs.Prelude.{◌≡◌, ◌↔◌, IsTrue, slice_range};
ghost use Rattle.std.specs.Bool.{OnTrue, OnFalse};
ghost use Rattle.page_source.specs.Pages.{num};
ghost use Rattle.fil_frame.specs.Fold.{fold_of};
ghost use Rattle.fil_frame.specs.Sums.{page_sum_of, page_fold_of, first_sum_of, second_sum_of};
ghost use Rattle.fil_frame.specs.Sums.{HasSums, HasSomeSums, IsSumKind};
ghost use Rattle.fil_frame.specs.Frame.{kind_of, IsFramed, Seals, SealsAs, with_frame, sealed, sealed_as};

use crate::body::body_sum;
use crate::crc::crc32c;
use crate::layout::{LOW_LSN, LSN_ECHO, PAGE_KIND, PAGE_LSN, PAGE_NUMBER, PAGE_SPACE};
use crate::rnd::fold;
use page_source::{PAGE_SIZE, Page, read_be, write_be};

// The places of the fields, with their names in fil0fil.h.

/// FIL_PAGE_SPACE_OR_CHKSUM, 4 bytes.
const CHECKSUM: usize = 0;

/// FIL_PAGE_FILE_FLUSH_LSN, 8 bytes.
const FLUSH_LSN: usize = 26;

/// FIL_PAGE_DATA, where the body begins.
const BODY: usize = 38;

/// FIL_PAGE_END_LSN_OLD_CHKSUM, where the body ends: the checksum again, 4 bytes.
const TAIL_CHECKSUM: usize = 16376;

/// The number that stands where a page has no checksum (BUF_NO_CHECKSUM_MAGIC).
const NO_SUM: u32 = 0xDEAD_BEEF;

/// The kind of a page's two checksums (innodb_checksum_algorithm, buf0checksum): 4 bytes at 0, and 4
/// at 16376.
#[derive(Clone, Copy, Debug, PartialEq, Eq)]
pub enum SumKind {
    /// `crc32`: CRC-32C, at both places.
    Crc32,
    /// `innodb`: two folds, that of bytes 0 to 25 at 16376.
    Innodb,
    /// `none`: BUF_NO_CHECKSUM_MAGIC, at both places.
    Fixed,
}

/// The checksum of the kind `crc32` (buf_calc_page_crc32): the CRC-32C of bytes 4 to 25 of the page,
/// exclusive-or that of bytes 38 to 16375.
#[tactic(auto, unfolding(crate::specs::Sums::page_sum_of))]
pub fn page_sum(page: &Page) -> u32
    ensures { result ≡ page_sum_of page.now }
{
    let bytes = page.bytes();
    crc32c(&bytes[PAGE_NUMBER..FLUSH_LSN]) ^ body_sum(&bytes[BODY..TAIL_CHECKSUM])
}

/// The fold of bytes 4 to 25 and that of bytes 38 to 16375, added.
#[tactic(auto, unfolding(crate::specs::Sums::page_fold_of))]
fn page_fold(page: &Page) -> u32
    ensures { result ≡ page_fold_of page.now }
{
    let bytes = page.bytes();
    fold(&bytes[PAGE_NUMBER..FLUSH_LSN]).wrapping_add(fold(&bytes[BODY..TAIL_CHECKSUM]))
}

/// The fold of bytes 0 to 25.
fn head_fold(page: &Page) -> u32
    ensures { result ≡ fold_of (slice_range page.now 0 26) }
{
    fold(&page.bytes()[CHECKSUM..FLUSH_LSN])
}

fn first_of(page: &Page) -> u32
    ensures { result ≡ num page.now 0 4 }
{
    read_be::<4>(page, CHECKSUM) as u32
}

fn second_of(page: &Page) -> u32
    ensures { result ≡ num page.now 16376 4 }
{
    read_be::<4>(page, TAIL_CHECKSUM) as u32
}

/// Whether the checksums are of this kind. What costs little is tested first.
fn has_sums(page: &Page, kind: SumKind) -> bool
    ensures { IsTrue result ↔ HasSums page.now kind }
{
    let first = first_of(page);
    let second = second_of(page);
    match kind {
        SumKind::Crc32 => first == second && first == page_sum(page),
        SumKind::Innodb => second == head_fold(page) && first == page_fold(page),
        SumKind::Fixed => first == NO_SUM && second == NO_SUM,
    }
}

/// The first kind that the page's two checksums are of, in the order `crc32`, `innodb`, `none`; none
/// where they are of no kind.
pub fn sum_kind(page: &Page) -> Option<SumKind>
    ensures { IsSumKind page.now result }
{
    if has_sums(page, SumKind::Crc32) {
        Some(SumKind::Crc32)
    } else if has_sums(page, SumKind::Innodb) {
        Some(SumKind::Innodb)
    } else if has_sums(page, SumKind::Fixed) {
        Some(SumKind::Fixed)
    } else {
        None
    }
}

/// The type of a page, 2 bytes at 24 (FIL_PAGE_TYPE); the module `kinds` has those of tablespaces.
pub fn kind(page: &Page) -> u16
    ensures { result ≡ kind_of page.now }
{
    read_be::<2>(page, PAGE_KIND) as u16
}

/// Whether the frame is broken as that of page `n` of the tablespace `space`: its checksums are of no
/// kind, the low 4 bytes of the LSN (at 20) don't stand again at 16380, or the page number (at 4) or
/// the space id (at 34) is another. The links, the flush LSN and the type may be any.
pub fn frame_fault(page: &Page, n: u32, space: u32) -> bool
    ensures broken { OnTrue result (¬ IsFramed page.now n space) }
    ensures whole { OnFalse result (IsFramed page.now n space) }
{
    !is_framed(page, n, space)
}

fn is_framed(page: &Page, n: u32, space: u32) -> bool
    ensures { IsTrue result ↔ IsFramed page.now n space }
{
    read_be::<4>(page, LSN_ECHO) == read_be::<4>(page, LOW_LSN)
        && read_be::<4>(page, PAGE_NUMBER) == u64::from(n)
        && read_be::<4>(page, PAGE_SPACE) == u64::from(space)
        && has_some_sums(page)
}

fn has_some_sums(page: &Page) -> bool
    ensures { IsTrue result ↔ HasSomeSums page.now }
{
    sum_kind(page).is_some()
}

/// Makes the frame that of page `n` of the tablespace `space`, with this LSN and type and checksums
/// of the kind `crc32`. The links, the flush LSN and the body, bytes 38 to 16375, stay.
pub fn seal(page: &mut Page, n: u32, space: u32, lsn: u64, kind: u16)
    ensures exact { page.new ≡ sealed page.old n space lsn kind }
    ensures seals { Seals page.old page.new n space lsn kind }
{
    prove!(page.bytes().len() == PAGE_SIZE);
    seal_as(page, n, space, lsn, kind, SumKind::Crc32);
}

/// Does what `seal` does, with checksums of this kind.
pub fn seal_as(page: &mut Page, n: u32, space: u32, lsn: u64, kind: u16, sum: SumKind)
    ensures exact { page.new ≡ sealed_as page.old n space lsn kind sum }
    ensures seals { SealsAs page.old page.new n space lsn kind sum }
{
    prove!(page.bytes().len() == PAGE_SIZE);
    put_fields(page, n, space, lsn, kind);
    let first = first_sum(page, sum);
    write_be::<4>(page, CHECKSUM, u64::from(first));
    let second = second_sum(page, sum, first);
    write_be::<4>(page, TAIL_CHECKSUM, u64::from(second));
}

/// The first checksum of this kind.
fn first_sum(page: &Page, kind: SumKind) -> u32
    ensures { result ≡ first_sum_of kind page.now }
{
    match kind {
        SumKind::Crc32 => page_sum(page),
        SumKind::Innodb => page_fold(page),
        SumKind::Fixed => NO_SUM,
    }
}

/// The second checksum of this kind, where the first one is known.
fn second_sum(page: &Page, kind: SumKind, first: u32) -> u32
    requires { first ≡ first_sum_of kind page.now }
    ensures { result ≡ second_sum_of kind page.now }
{
    match kind {
        SumKind::Crc32 | SumKind::Fixed => first,
        SumKind::Innodb => head_fold(page),
    }
}

#[tactic(auto, unfolding(crate::specs::Frame::with_frame))]
fn put_fields(page: &mut Page, n: u32, space: u32, lsn: u64, kind: u16)
    ensures { page.new ≡ with_frame page.old n space lsn kind }
{
    write_be::<4>(page, PAGE_NUMBER, u64::from(n));
    write_be::<8>(page, PAGE_LSN, lsn);
    write_be::<2>(page, PAGE_KIND, u64::from(kind));
    write_be::<4>(page, PAGE_SPACE, u64::from(space));
    write_be::<4>(page, LSN_ECHO, lsn & 0xFFFF_FFFF);
}
