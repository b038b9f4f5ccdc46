//! How many records of a leaf have the delete mark, how many don't, and whether all their values lie on it whole.

ghost use Rattle.std.specs.Prelude.{◌≡◌, ◌+◌, ◌≤◌, true, false, if◌then◌else◌};
ghost use Rattle.compact_record.specs.Header.{is_deleted, is_minimum};
ghost use Rattle.compact_record.specs.Reading.{IsHeapOrigin};
ghost use Rattle.compact_record.specs.Whole.{LiesWhole};
ghost use Rattle.index_page.specs.Header.{records_of, record_count};
ghost use Rattle.tree_walk.specs.Records.{PageFacts};
ghost use Rattle.tree_walk.specs.Walk.{IsTally, AreUnmarked};

use column_values::{FieldList, take_any_bytes};
use compact_record::{deleted, lies_whole, minimum, next_origin};
use index_page::layout::INFIMUM;
use index_page::record_count;
use page_source::Page;

/// How many records have no delete mark, how many have one, and whether the values of all are known to lie whole on
/// their pages.
#[derive(Clone, Copy, Debug, PartialEq, Eq)]
pub(crate) struct Tally {
    pub live: u64,
    pub deleted: u64,
    pub whole: bool,
}

/// What is found of the records of a leaf: their tally, and whether none of them has the minimum mark.
#[derive(Clone, Copy, Debug, PartialEq, Eq)]
pub(crate) struct Count {
    pub tally: Tally,
    pub unmarked: bool,
}

/// The tally of no records.
pub(crate) const NONE: Tally = Tally {
    live: 0,
    deleted: 0,
    whole: true,
};

/// The tally with the record at this origin.
fn one_more(tally: Tally, page: &Page, origin: usize, fields: &FieldList) -> Tally
    requires few { tally.live + tally.deleted ≤ 65536 }
    requires origin { IsHeapOrigin origin }
    ensures live { result.live ≡ tally.live + (if is_deleted page.now origin then 0 else 1) }
    ensures deleted { result.deleted ≡ tally.deleted + (if is_deleted page.now origin then 1 else 0) }
    ensures whole { result.whole ≡ true → (tally.whole ≡ true) × LiesWhole page.now fields.now origin }
{
    let whole = tally.whole && lies_whole(page, origin, fields);
    if deleted(page, origin) {
        Tally {
            deleted: tally.deleted + 1,
            whole,
            ..tally
        }
    } else {
        Tally {
            live: tally.live + 1,
            whole,
            ..tally
        }
    }
}

/// Whether neither this record nor one before it has the minimum mark.
fn none_marked(before: bool, page: &Page, origin: usize) -> bool
    requires { IsHeapOrigin origin }
    ensures { result ≡ true → (before ≡ true) × (is_minimum page.now origin ≡ false) }
{
    before && !minimum(page, origin)
}

/// What is found of the records of a page. Whether their values lie whole is asked only if nobody has to look at them
/// then, since any bytes are values of these columns.
pub(crate) fn count_of(page: &Page, fields: &FieldList) -> Count
    requires facts { PageFacts page.now fields.now }
    ensures exact { IsTally page.now fields.now result.tally }
    ensures most { result.tally.live + result.tally.deleted ≤ 65536 }
    ensures unmarked { result.unmarked ≡ true → AreUnmarked page.now (records_of page.now) }
{
    let mut tally = Tally {
        whole: take_any_bytes(fields),
        ..NONE
    };
    let mut unmarked = true;
    let mut at = INFIMUM;
    for k in 0..record_count(page) {
        at = next_origin(page, at);
        tally = one_more(tally, page, at, fields);
        unmarked = none_marked(unmarked, page, at);
    }
    Count { tally, unmarked }
}

/// What is found of the records of a page of this level, where it is a leaf.
pub(crate) fn count_on(level: u16, page: &Page, fields: &FieldList) -> Count
    requires facts { PageFacts page.now fields.now }
    ensures exact { level ≡ 0 → IsTally page.now fields.now result.tally }
    ensures most { result.tally.live + result.tally.deleted ≤ 65536 }
    ensures unmarked { result.unmarked ≡ true → AreUnmarked page.now (records_of page.now) × (level ≡ 0) }
{
    if level == 0 {
        count_of(page, fields)
    } else {
        Count {
            tally: NONE,
            unmarked: false,
        }
    }
}
