//! The types of pages (FIL_PAGE_TYPE), with their names in fil0fil.h.

/// A page that was freed, or never written.
pub const FIL_PAGE_TYPE_ALLOCATED: u16 = 0;

/// A page of segment inodes.
pub const FIL_PAGE_INODE: u16 = 3;

/// The bitmap page of the change buffer, behind page 0 and behind each descriptor page.
pub const FIL_PAGE_IBUF_BITMAP: u16 = 5;

/// Page 0, with the space header.
pub const FIL_PAGE_TYPE_FSP_HDR: u16 = 8;

/// A descriptor page behind page 0.
pub const FIL_PAGE_TYPE_XDES: u16 = 9;

/// A page of a value that is stored off its record's page.
pub const FIL_PAGE_TYPE_BLOB: u16 = 10;

/// A page of an index.
pub const FIL_PAGE_INDEX: u16 = 17855;
