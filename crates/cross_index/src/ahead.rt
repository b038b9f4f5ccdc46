//! The rows that come next in the order of an index, read ahead of their turn.

use crate::kept_values::KeptValues;
use crate::order::{Keys, cell_number};
use page_source::NoMemory;
use std::alloc::Global;

/// How many rows are read ahead at a time.
const ROWS: usize = 64;

/// What was read ahead. The values of these rows lie anywhere in memory, so the processor waits for those of each row
/// if they are compared at once; in a short loop that does nothing else it fetches those of many rows side by side.
/// Nothing is said of what was read, since no answer rests on it.
#[derive(Drop)]
pub(crate) struct Ahead {
    /// Where the first values of the keys of these rows begin.
    starts: Vec<usize>,
    /// The bytes there.
    bytes: Vec<u8>,
}

/// Finds where the value at a slot of each row begins.
fn find_starts(starts: &mut [usize], keys: &Keys, slot: usize, rows: &[usize]) {
    for i in 0..rows.len().min(starts.len()) {
        starts[i] = keys.cells.start(cell_number(rows[i], keys.width, slot));
    }
}

/// Reads the bytes at some places.
fn read_bytes(bytes: &mut [u8], cells: &KeptValues, starts: &[usize]) {
    for i in 0..starts.len().min(bytes.len()) {
        bytes[i] = cells.byte(starts[i]);
    }
}

impl Ahead {
    /// Nothing was read yet.
    pub(crate) fn new(alloc: Global) -> Result<Ahead, NoMemory> {
        Ok(Ahead {
            starts: Vec::from_elem(alloc, 0, ROWS)?,
            bytes: Vec::from_elem(alloc, 0, ROWS)?,
        })
    }

    /// Reads ahead from a place of the order on, if all rows that were read ahead before have had their turn.
    pub(crate) fn read(&mut self, keys: &Keys, order: &[usize], next: usize) {
        if next % ROWS != 0 || next >= order.len() || keys.slots.is_empty() {
            return;
        }
        find_starts(&mut self.starts, keys, keys.slots[0], &order[next..]);
        read_bytes(&mut self.bytes, keys.cells, &self.starts);
    }
}
