//! The pages of an index, by their bytes. All other bytes are zero.

/// Bytes, and where on the page they stand.
pub type Piece = (usize, &'static [u8]);

/// Three rows of a table with the key `id int`: -1, 0 and 2147483647.
pub const THREE_ROWS: [Piece; 8] = [
    (38, b"\0\x02\0\xBA\x80\x05"),
    (54, b"\0\x03"),
    (94, b"\x01\0\x02\0\x1Ainfimum\0"),
    (107, b"\x04\0\x0B\0\0supremum"),
    (120, b"\0\0\x10\0\x16\x7F\xFF\xFF\xFF"),
    (142, b"\0\0\x18\0\x16\x80\0\0\0"),
    (164, b"\0\0 \xFF\xC7\xFF\xFF\xFF\xFF"),
    (16372, b"\0p\0c"),
];

/// What makes the second of the three rows a free record.
pub const SECOND_FREE: [Piece; 5] = [
    (44, b"\0\x93"),
    (54, b"\0\x02"),
    (107, b"\x03"),
    (123, b"\0,"),
    (145, b"\0\0"),
];
