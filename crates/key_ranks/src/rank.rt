//! Ranks: the front of a row's key, and the number of the row.

ghost use Rattle.std.specs.Prelude.{◌≡◌, ◌%◌, ◌^◌};

use crate::row_keys::RowKeys;

/// A rank is the front of a row's key times this, and the number of the row.
pub(crate) const ROWS: usize = 16_777_216;

/// How many rows are read ahead of their comparison, less one.
pub(crate) const AHEAD: usize = 64;

/// The row of a rank.
pub(crate) fn row_of(rank: usize) -> usize
    ensures { result ≡ rank % 2 ^ 24 }
{
    rank % ROWS
}

/// The first byte of the key of a rank's row, 0 if it has none. Nothing is said of it, since no answer rests on it.
fn first_byte<K: RowKeys>(keys: &K, rank: usize) -> u8 {
    match keys.first(row_of(rank)) {
        Some(value) if !value.is_empty() => value[0],
        _ => 0,
    }
}

/// Reads a byte of the keys of the next ranks' rows, if the keys of two neighbours have to be compared. They lie
/// anywhere in memory, so the processor waits for those of each row if they are compared at once; in a short loop that
/// does nothing else it fetches those of many rows side by side. Nothing is said of what was read.
pub(crate) fn read_ahead<K: RowKeys>(keys: &K, ranks: &[usize], ahead: &mut [u8]) {
    for i in 1..ranks.len().min(ahead.len()) {
        if ranks[i - 1] / ROWS == ranks[i] / ROWS {
            ahead[i] = first_byte(keys, ranks[i - 1]) ^ first_byte(keys, ranks[i]);
        }
    }
}
