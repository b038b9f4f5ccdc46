//! The rows sorted by the fronts of their keys.

ghost use Rattle.std.specs.Prelude.{◌≡◌, ◌*◌, ◌%◌, ◌/◌, ◌^◌, ◌≤◌, ◌<◌, IfOk, IfSome, IsPermutation, IsSortedBy, IsTrue};
ghost use Rattle.std.specs.Prelude.{ℕ, [], ◌∷◌, length, map, slice_index_or, None, false};
ghost use Rattle.std.specs.Option.{option_copied};
ghost use Rattle.std.specs.Ordering.{is_lt};
ghost use Rattle.std.specs.List.{range_with_len};
ghost use Rattle.column_values.specs.declared.field.FieldType.{FieldType};
ghost use Rattle.column_values.specs.Order.{key_cmp};
ghost use Rattle.key_ranks.specs.Keys.{IsRowOrder};
ghost use Rattle.key_ranks.specs.Ranks.{AreInOrder, HasFront, HaveFronts, IsFront, filler_of, key_of_rank};

use crate::fronts::{Digit, common_front, digits_of, filler, front_of, ranges_of};
use crate::rank::{AHEAD, ROWS, read_ahead, row_of};
use crate::row_keys::RowKeys;
use crate::ties::{sort_runs, sort_ties};
use column_values::FieldType;
use page_source::NoMemory;
use std::alloc::Global;
use std::cmp::Ordering;

/// The ranks of so many rows, or none if a value isn't spelled by the digits.
fn ranks_of<K: RowKeys>(
    alloc: Global,
    keys: &K,
    digits: &[Digit],
    filler: u8,
    count: usize,
) -> Result<Option<Vec<usize>>, NoMemory>
    requires few { count ≤ 2 ^ 24 }
    ensures rows { IfOk result (λ found. IfSome found (λ ranks.
        map (λ rank. rank % 2 ^ 24) ranks.items ≡ range_with_len 0 count)) }
    ensures fronts { IfOk result (λ found. IfSome found (λ ranks.
        HaveFronts (K.table keys.now) filler digits.now ranks.items)) }
{
    let mut ranks = Vec::with_capacity(alloc, count)?;
    for row in 0..count {
        let first = keys.first(row);
        let Some(front) = front_of(first, digits, filler) else {
            return Ok(None);
        };
        ranks.push(front * ROWS + row)?;
    }
    Ok(Some(ranks))
}

/// Whether the key of the row of a rank isn't below that of the rank before it.
fn follows<K: RowKeys>(
    keys: &K,
    kind: &FieldType,
    digits: &[Digit],
    before: usize,
    here: usize,
) -> bool
    requires kind { (d : FieldType) → 0 < length (K.table keys.now).kinds
        → kind.now ≡ slice_index_or (K.table keys.now).kinds 0 d }
    requires fronts { HaveFronts (K.table keys.now) (filler_of kind.now) digits.now (before ∷ here ∷ []) }
    ensures { IsTrue result → is_lt (key_cmp (K.table keys.now).kinds (key_of_rank (K.table keys.now) here)
        (key_of_rank (K.table keys.now) before)) ≡ false }
{
    if before / ROWS < here / ROWS {
        return true;
    }
    match keys.compare(row_of(here), row_of(before)) {
        Ordering::Less => false,
        Ordering::Equal | Ordering::Greater => true,
    }
}

/// Whether the keys of the rows of these ranks don't fall. So many rows are read ahead at a time as there are bytes
/// for.
fn are_in_order<K: RowKeys>(
    keys: &K,
    kind: &FieldType,
    digits: &[Digit],
    ranks: &[usize],
    ahead: &mut [u8],
) -> bool
    requires kind { (d : FieldType) → 0 < length (K.table keys.now).kinds
        → kind.now ≡ slice_index_or (K.table keys.now).kinds 0 d }
    requires fronts { HaveFronts (K.table keys.now) (filler_of kind.now) digits.now ranks.now }
    ensures { IsTrue result → AreInOrder (K.table keys.now) ranks.now }
{
    for i in 1..ranks.len() {
        if i % AHEAD == 1 {
            read_ahead(keys, &ranks[i - 1..], ahead);
        }
        if !follows(keys, kind, digits, ranks[i - 1], ranks[i]) {
            return false;
        }
    }
    true
}

/// Sorts the ranks, and answers whether the keys of their rows don't fall then. Rows with equal fronts stay in their
/// own order if that is right; otherwise those of each front are sorted by other bytes of their keys, and if that isn't
/// right either, as with texts that end in spaces or differ in bytes below the space, by the keys.
fn sort<K: RowKeys>(
    keys: &K,
    kind: &FieldType,
    digits: &[Digit],
    ranks: &mut [usize],
    ahead: &mut [u8],
) -> bool
    requires kind { (d : FieldType) → 0 < length (K.table keys.now).kinds
        → kind.now ≡ slice_index_or (K.table keys.now).kinds 0 d }
    requires fronts { HaveFronts (K.table keys.now) (filler_of kind.now) digits.now ranks.old }
    ensures places { IsPermutation ranks.old ranks.new }
    ensures order { IsTrue result → AreInOrder (K.table keys.now) ranks.new }
{
    ranks.sort_unstable();
    if are_in_order(keys, kind, digits, ranks, ahead) {
        return true;
    }
    sort_ties(keys, digits.len(), filler(kind), ranks, ahead);
    if are_in_order(keys, kind, digits, ranks, ahead) {
        return true;
    }
    sort_runs(keys, ranks);
    are_in_order(keys, kind, digits, ranks, ahead)
}

/// The rows of ranks.
fn strip(ranks: &mut [usize])
    ensures { ranks.new ≡ map (λ rank. rank % 2 ^ 24) ranks.old }
{
    for rank in ranks.iter_mut() {
        *rank = row_of(*rank);
    }
}

/// So many rows in the order of their keys, or none if their ranks don't tell it.
pub(crate) fn order_by_ranks<K: RowKeys>(
    alloc: Global,
    keys: &K,
    count: usize,
) -> Result<Option<Vec<usize>>, NoMemory>
    ensures { IfOk result (λ found. IfSome found (λ order. IsRowOrder (K.table keys.now) count order.items)) }
{
    if count > ROWS {
        return Ok(None);
    }
    let begin = common_front(keys, count);
    if begin.len() >= ROWS {
        return Ok(None);
    }
    let kind = keys.kind();
    let filler = filler(&kind);
    let ranges = ranges_of(keys, begin.len(), count);
    let digits = digits_of(alloc, begin, &ranges, filler)?;
    let Some(mut ranks) = ranks_of(alloc, keys, &digits, filler, count)? else {
        return Ok(None);
    };
    let mut ahead = Vec::from_elem(alloc, 0, AHEAD + 1)?;
    if !sort(keys, &kind, &digits, &mut ranks, &mut ahead) {
        return Ok(None);
    }
    strip(&mut ranks);
    Ok(Some(ranks))
}
