//! Rows in the order of their keys.

ghost use Rattle.std.specs.Prelude.{◌≡◌, IfOk};
ghost use Rattle.key_ranks.specs.Keys.{IsRowOrder};

use crate::numbers::numbers;
use crate::ranks::order_by_ranks;
use crate::row_keys::RowKeys;
use page_source::NoMemory;
use std::alloc::Global;

/// So many rows in the order of their keys.
pub fn order_of_rows<K: RowKeys>(
    alloc: Global,
    keys: &K,
    count: usize,
) -> Result<Vec<usize>, NoMemory>
    ensures { IfOk result (λ order. IsRowOrder (K.table keys.now) count order.items) }
{
    if let Some(found) = order_by_ranks(alloc, keys, count)? {
        return Ok(found);
    }
    let mut order = numbers(alloc, count)?;
    order.sort_by(|a, b| keys.compare(*a, *b))?;
    Ok(order)
}
