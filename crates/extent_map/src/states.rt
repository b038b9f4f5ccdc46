//! The states of an extent (XDES_STATE), with their names in fsp0fsp.h.

/// XDES_FREE: none of the extent's pages is used.
pub const FREE: u32 = 1;

/// XDES_FREE_FRAG: the extent's pages are given out one by one, and some are free.
pub const FREE_FRAG: u32 = 2;

/// XDES_FULL_FRAG: the extent's pages were given out one by one, and none is free.
pub const FULL_FRAG: u32 = 3;

/// XDES_FSEG: the extent belongs to a segment as a whole.
pub const FSEG: u32 = 4;
