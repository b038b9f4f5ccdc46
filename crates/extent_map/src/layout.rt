//! Where a field stands in the descriptor of an extent (fsp0fsp.h).

/// XDES_BITMAP, two bits a page, 16 bytes.
pub const BITMAP: usize = 24;
