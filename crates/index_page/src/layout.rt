//! Where things stand on an index page (page0page.h).

/// PAGE_N_DIR_SLOTS, the number of directory slots, 2 bytes.
pub const SLOT_COUNT: usize = 38;

/// PAGE_N_HEAP, the number of heap records, 2 bytes; bit 15 is set in the compact format.
pub const HEAP_COUNT: usize = 42;

/// PAGE_FREE, the first free record, 0 if there is none, 2 bytes.
pub const FIRST_FREE: usize = 44;

/// PAGE_N_RECS, the number of records in the chain, 2 bytes.
pub const RECORD_COUNT: usize = 54;

/// PAGE_LEVEL, the level of the page, 2 bytes.
pub const LEVEL: usize = 64;

/// PAGE_INDEX_ID, the id of the index, 8 bytes.
pub const INDEX_ID: usize = 66;

/// PAGE_NEW_INFIMUM, the origin of the record before the first one.
pub const INFIMUM: usize = 99;

/// PAGE_NEW_SUPREMUM, the origin of the record after the last one.
pub const SUPREMUM: usize = 112;

/// The least origin of a record of the heap.
pub const FIRST_ORIGIN: usize = 125;

/// The first byte after directory slot 0, from which the slots go down (PAGE_DIR).
pub const DIRECTORY_END: usize = 16376;

/// PAGE_DIR_SLOT_SIZE, the bytes of a directory slot.
pub const SLOT_SIZE: usize = 2;

/// Bit 15 of PAGE_N_HEAP, which is set in the compact format.
pub const COMPACT_BIT: usize = 0x8000;
