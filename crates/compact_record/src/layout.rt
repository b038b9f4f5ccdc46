//! What the compact format fixes of a record and of the heap of its page (rem0rec, page0page.h).

/// REC_N_NEW_EXTRA_BYTES, the bytes of a header before its origin.
pub const RECORD_HEADER: usize = 5;

/// PAGE_NEW_SUPREMUM_END, where the heap of a page begins.
pub const HEAP_START: usize = 120;
