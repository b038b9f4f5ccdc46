//! The ranks of each front, sorted by what comes after it in the keys of their rows.

ghost use Rattle.std.specs.Prelude.{◌≡◌, ◌%◌, ◌/◌, ◌*◌, ◌+◌, ◌^◌, ◌≤◌, ◌<◌, IsPermutation};
ghost use Rattle.std.specs.Prelude.{ℕ, length, map, slice_index_or};

use crate::fronts::{FRONTS, byte_at, common};
use crate::rank::{AHEAD, ROWS, read_ahead, row_of};
use crate::row_keys::RowKeys;

/// Where the bytes of a key begin that come into a rank in place of its front: in the first value or the second.
#[derive(Clone, Copy)]
struct Rest {
    second: bool,
    begin: usize,
}

/// These bytes of a row's key; none if the value is null or ends before.
fn rest_of<K: RowKeys>(keys: &K, row: usize, rest: Rest) -> Option<&[u8]> {
    let value = if rest.second {
        keys.second(row)
    } else {
        keys.first(row)
    };
    match value {
        Some(value) if rest.begin < value.len() => Some(&value[rest.begin..]),
        _ => None,
    }
}

/// Whether some row of these ranks has such bytes.
fn has_rest<K: RowKeys>(keys: &K, rest: Rest, ranks: &[usize]) -> bool {
    for rank in ranks {
        if rest_of(keys, row_of(*rank), rest).is_some() {
            return true;
        }
    }
    false
}

/// With how many bytes all of these begin.
fn common_rest<K: RowKeys>(keys: &K, rest: Rest, ranks: &[usize]) -> usize {
    let mut front: Option<&[u8]> = None;
    for rank in ranks {
        if let Some(bytes) = rest_of(keys, row_of(*rank), rest) {
            front = match front {
                Some(front) => Some(&front[..common(front, bytes)]),
                None => Some(bytes),
            };
        }
    }
    match front {
        Some(front) => front.len(),
        None => 0,
    }
}

/// Where the rows of these ranks begin to differ, as far as it is easily told: in the first value, from `begin` on, or
/// in the second, if all first values end there. No answer rests on it.
fn first_rest<K: RowKeys>(keys: &K, begin: usize, ranks: &[usize]) -> Rest {
    let mut rest = Rest {
        second: false,
        begin,
    };
    if !has_rest(keys, rest, ranks) {
        rest = Rest {
            second: true,
            begin: 0,
        };
    }
    let more = common_rest(keys, rest, ranks);
    Rest {
        second: rest.second,
        begin: rest.begin.saturating_add(more),
    }
}

/// The number that the next five bytes of a key are, 0 if there are none. Nothing else is said of it, since what is
/// sorted by it is tested.
fn next_front(rest: Option<&[u8]>, filler: u8) -> usize
    ensures { result < 2 ^ 40 }
{
    let Some(rest) = rest else {
        return 0;
    };
    let mut number = 0;
    for i in 0..5 {
        number = (number * 256 + usize::from(byte_at(rest, i, filler))) % FRONTS;
    }
    number
}

/// Puts the number of the next five bytes in place of the front of each of these ranks.
fn put_next_fronts<K: RowKeys>(keys: &K, rest: Rest, filler: u8, ranks: &mut [usize])
    ensures { map (λ rank. rank % 2 ^ 24) ranks.new ≡ map (λ rank. rank % 2 ^ 24) ranks.old }
{
    for rank in ranks.iter_mut() {
        let row = row_of(*rank);
        *rank = next_front(rest_of(keys, row, rest), filler) * ROWS + row;
    }
}

/// Puts this front in place of that of each of these ranks.
fn put_front(front: usize, ranks: &mut [usize])
    requires { front < 2 ^ 40 }
    ensures { ranks.new ≡ map (λ rank. front * 2 ^ 24 + rank % 2 ^ 24) ranks.old }
{
    for rank in ranks.iter_mut() {
        *rank = front * ROWS + row_of(*rank);
    }
}

/// Sorts the ranks at some places by the keys of their rows. Nothing is said of their order, since `are_in_order` tests
/// what comes of it.
fn sort_run<K: RowKeys>(keys: &K, ranks: &mut [usize], from: usize, until: usize)
    requires from { from ≤ until }
    requires until { until ≤ length ranks.old }
    ensures { IsPermutation ranks.old ranks.new }
{
    ranks[from..until].sort_unstable_by(|a, b| keys.compare(row_of(*a), row_of(*b)));
}

/// Sorts the ranks of each front, which stand one after another, by the keys of their rows.
pub(crate) fn sort_runs<K: RowKeys>(keys: &K, ranks: &mut [usize])
    ensures { IsPermutation ranks.old ranks.new }
{
    let mut from = 0;
    for i in 1..ranks.len() {
        if ranks[i - 1] / ROWS != ranks[i] / ROWS {
            sort_run(keys, ranks, from, i);
            from = i;
        }
    }
    sort_run(keys, ranks, from, ranks.len());
}

/// Sorts ranks that have one front, which was made of the bytes before `begin`: by the five bytes of the keys that come
/// next, as numbers, and those that have these in common too by the keys.
fn sort_tie<K: RowKeys>(keys: &K, begin: usize, filler: u8, ranks: &mut [usize])
    requires front { (i : ℕ) → i < length ranks.old
        → slice_index_or ranks.old i 0 / 2 ^ 24 ≡ slice_index_or ranks.old 0 0 / 2 ^ 24 }
    ensures { IsPermutation ranks.old ranks.new }
{
    if ranks.len() < 2 {
        return;
    }
    let front = ranks[0] / ROWS;
    let rest = first_rest(keys, begin, ranks);
    put_next_fronts(keys, rest, filler, ranks);
    ranks.sort_unstable();
    sort_runs(keys, ranks);
    put_front(front, ranks);
}

/// Sorts the ranks of each front, which stand one after another and were made of the bytes before `begin`. Nothing is
/// said of their order, since `are_in_order` tests what comes of it. So many rows are read ahead at a time as there
/// are bytes for.
pub(crate) fn sort_ties<K: RowKeys>(
    keys: &K,
    begin: usize,
    filler: u8,
    ranks: &mut [usize],
    ahead: &mut [u8],
)
    ensures { IsPermutation ranks.old ranks.new }
{
    let mut from = 0;
    for i in 1..ranks.len() {
        if i % AHEAD == 1 {
            read_ahead(keys, &ranks[i - 1..], ahead);
        }
        if ranks[i - 1] / ROWS != ranks[i] / ROWS {
            sort_tie(keys, begin, filler, &mut ranks[from..i]);
            from = i;
        }
    }
    sort_tie(keys, begin, filler, &mut ranks[from..]);
}
