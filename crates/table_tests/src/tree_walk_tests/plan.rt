//! Small tablespaces with trees, piece by piece.

/// Bytes from a byte of a page on.
pub type Piece<'a> = (usize, &'a [u8]);

pub const INFIMUM: Piece<'static> = (94, b"\x01\x00\x02\x00\x1Ainfimum\x00");

pub const ABOVE_ONE: Piece<'static> = (107, b"\x02\x00\x0B\x00\x00supremum");

pub const ABOVE_TWO: Piece<'static> = (107, b"\x03\x00\x0B\x00\x00supremum");

/// The headers of the root's segments.
pub const SEGMENTS: Piece<'static> = (
    74,
    b"\x00\x00\x00\x17\x00\x00\x00\x02\x00\xF2\x00\x00\x00\x17\x00\x00\x00\x02\x00\x32",
);

pub const ONE_POINTER: Piece<'static> = (38, b"\x00\x02\x00\x85\x80\x03");

pub const TWO_POINTERS: Piece<'static> = (38, b"\x00\x02\x00\x92\x80\x04");

pub const ONE_ROW: Piece<'static> = (38, b"\x00\x02\x00\x8E\x80\x03");

pub const TWO_ROWS: Piece<'static> = (38, b"\x00\x02\x00\xA4\x80\x04");

pub const ONE: Piece<'static> = (54, b"\x00\x01");

pub const TWO: Piece<'static> = (54, b"\x00\x02");

/// The level of a page, and the id of the index.
pub const LEVEL_0: Piece<'static> = (64, b"\x00\x00\x00\x00\x00\x00\x00\x00\x00\x29");

pub const LEVEL_1: Piece<'static> = (64, b"\x00\x01\x00\x00\x00\x00\x00\x00\x00\x29");

pub const LEVEL_2: Piece<'static> = (64, b"\x00\x02\x00\x00\x00\x00\x00\x00\x00\x29");

/// The pages before and after, where there is none.
pub const ALONE_IN_LEVEL: Piece<'static> = (8, b"\xFF\xFF\xFF\xFF\xFF\xFF\xFF\xFF");

/// A tablespace whose pages are all used: their number, the pages of each segment, and the pages from 3 on. Of an
/// index the segment of the pages above the leaves comes first, and then that of the leaves.
pub struct Plan {
    pub pages: u32,
    pub segments: &'static [[u32; 3]],
    pub tree: &'static [&'static [Piece<'static>]],
}

pub const NONE: u32 = 0xFFFF_FFFF;

/// The root, two pages of level 1, two leaves.
pub const THREE_LEVELS: Plan = Plan {
    pages: 8,
    segments: &[[3, 4, 5], [6, 7, NONE]],
    tree: &[
        &[
            ALONE_IN_LEVEL,
            TWO_POINTERS,
            TWO,
            LEVEL_2,
            SEGMENTS,
            INFIMUM,
            ABOVE_TWO,
            (120, b"\x10\x00\x11\x00\x0D\x80\x00\x00\x01\x00\x00\x00\x04"),
            (133, b"\x00\x00\x19\xFF\xE6\x80\x00\x00\x07\x00\x00\x00\x05"),
        ],
        &[
            (8, b"\xFF\xFF\xFF\xFF\x00\x00\x00\x05"),
            ONE_POINTER,
            ONE,
            LEVEL_1,
            INFIMUM,
            ABOVE_ONE,
            (120, b"\x10\x00\x11\xFF\xF3\x80\x00\x00\x01\x00\x00\x00\x06"),
        ],
        &[
            (8, b"\x00\x00\x00\x04\xFF\xFF\xFF\xFF"),
            ONE_POINTER,
            ONE,
            LEVEL_1,
            INFIMUM,
            ABOVE_ONE,
            (120, b"\x00\x00\x11\xFF\xF3\x80\x00\x00\x07\x00\x00\x00\x07"),
        ],
        &[
            (8, b"\xFF\xFF\xFF\xFF\x00\x00\x00\x07"),
            ONE_ROW,
            ONE,
            LEVEL_0,
            INFIMUM,
            ABOVE_ONE,
            (120, b"\x00\x00\x10\xFF\xF3\x80\x00\x00\x01"),
        ],
        &[
            (8, b"\x00\x00\x00\x06\xFF\xFF\xFF\xFF"),
            ONE_ROW,
            ONE,
            LEVEL_0,
            INFIMUM,
            ABOVE_ONE,
            (120, b"\x00\x00\x10\xFF\xF3\x80\x00\x00\x09"),
        ],
    ],
};

/// The root and two leaves of two rows each.
pub const TWO_LEVELS: Plan = Plan {
    pages: 6,
    segments: &[[3, NONE, NONE], [4, 5, NONE]],
    tree: &[
        &[
            ALONE_IN_LEVEL,
            TWO_POINTERS,
            TWO,
            LEVEL_1,
            SEGMENTS,
            INFIMUM,
            ABOVE_TWO,
            (120, b"\x10\x00\x11\x00\x0D\x80\x00\x00\x01\x00\x00\x00\x04"),
            (133, b"\x00\x00\x19\xFF\xE6\x80\x00\x00\x04\x00\x00\x00\x05"),
        ],
        &[
            (8, b"\xFF\xFF\xFF\xFF\x00\x00\x00\x05"),
            TWO_ROWS,
            TWO,
            LEVEL_0,
            INFIMUM,
            ABOVE_TWO,
            (120, b"\x00\x00\x10\x00\x16\x80\x00\x00\x01"),
            (142, b"\x00\x00\x18\xFF\xDD\x80\x00\x00\x02"),
        ],
        &[
            (8, b"\x00\x00\x00\x04\xFF\xFF\xFF\xFF"),
            TWO_ROWS,
            TWO,
            LEVEL_0,
            INFIMUM,
            ABOVE_TWO,
            (120, b"\x00\x00\x10\x00\x16\x80\x00\x00\x05"),
            (142, b"\x00\x00\x18\xFF\xDD\x80\x00\x00\x06"),
        ],
    ],
};
