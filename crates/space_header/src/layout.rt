//! Where fields of the space header stand on page 0 (fsp0fsp.h), and what an extent is.

/// FSP_SPACE_ID, 4 bytes.
pub const SPACE_ID: usize = 38;

/// FSP_SIZE, in pages, 4 bytes.
pub const SPACE_SIZE: usize = 46;

/// FSP_FREE_LIMIT, 4 bytes: no page from here on was ever used.
pub const FREE_LIMIT: usize = 50;

/// FSP_SPACE_FLAGS, 4 bytes.
pub const SPACE_FLAGS: usize = 54;

/// FSP_EXTENT_SIZE, the pages of an extent.
pub const EXTENT_PAGES: u32 = 64;
