//! Where the fields of the frame stand on a page (fil0fil.h).

/// FIL_PAGE_OFFSET, the number of the page, 4 bytes.
pub const PAGE_NUMBER: usize = 4;

/// FIL_PAGE_PREV, the page before this one on its level of an index, 4 bytes.
pub const PREVIOUS_PAGE: usize = 8;

/// FIL_PAGE_NEXT, the page after this one on its level of an index, 4 bytes.
pub const NEXT_PAGE: usize = 12;

/// FIL_PAGE_LSN, 8 bytes.
pub const PAGE_LSN: usize = 16;

/// The low 4 bytes of the LSN.
pub const LOW_LSN: usize = 20;

/// FIL_PAGE_TYPE, 2 bytes.
pub const PAGE_KIND: usize = 24;

/// FIL_PAGE_ARCH_LOG_NO_OR_SPACE_ID, the space id, 4 bytes.
pub const PAGE_SPACE: usize = 34;

/// The low 4 bytes of the LSN once more, at the end of the page.
pub const LSN_ECHO: usize = 16380;
