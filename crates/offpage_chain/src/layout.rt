//! Where things stand in a reference and on a page of a value (btr0types.h, btr0cur).

/// BTR_EXTERN_FIELD_REF_SIZE, the bytes of a reference, the last of the local ones.
pub const REFERENCE_SIZE: usize = 20;

/// FIL_PAGE_DATA, where the header of a part begins, which a reference names.
pub const PART_HEADER: u32 = 38;

/// The first byte of a part, after its header.
pub const PART_START: usize = 46;

/// The most bytes of a part: up to the trailer of the page.
pub const LONGEST_PART: u32 = 16330;
