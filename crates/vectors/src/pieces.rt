//! What stands on the pages of the files.

/// A page's number, a place on it, and the bytes that stand there.
pub type Piece<'a> = (u32, usize, &'a [u8]);

/// A list node without neighbours.
const ALONE: &[u8] = b"\xFF\xFF\xFF\xFF\0\0\xFF\xFF\xFF\xFF\0\0";

/// The base of an empty list.
const EMPTY: &[u8] = b"\0\0\0\0\xFF\xFF\xFF\xFF\0\0\xFF\xFF\xFF\xFF\0\0";

/// The bases of the three empty lists of an inode.
const THREE_EMPTY: &[u8] =
    b"\0\0\0\0\xFF\xFF\xFF\xFF\0\0\xFF\xFF\xFF\xFF\0\0\0\0\0\0\xFF\xFF\xFF\xFF\0\0\xFF\xFF\xFF\xFF\0\0\0\0\0\0\xFF\xFF\xFF\xFF\0\0\xFF\xFF\xFF\xFF\0\0";

/// The magic number of an inode.
const MAGIC: &[u8] = b"\x05\xD6\x69\xD2";

/// The slots of an inode without pages.
const NO_SLOTS: &[u8] = &[0xFF; 128];

/// An index page of level 0 without records, on each page of that type.
pub(crate) const NO_RECORDS: [(usize, &[u8]); 5] = [
    // The pages before and after this one: none.
    (8, &[0xFF; 8]),
    // Two directory slots, the heap top 120, two records on the heap.
    (38, b"\0\x02\0\x78\x80\x02"),
    // The index id 41.
    (66, b"\0\0\0\0\0\0\0\x29"),
    // The infimum and the supremum.
    (94, b"\x01\0\x02\0\x0Dinfimum\0\x01\0\x0B\0\0supremum"),
    // The directory: the supremum at 112, the infimum at 99.
    (16372, b"\0\x70\0\x63"),
];

/// The space, and a table without rows.
pub(crate) const NO_ROWS: [Piece<'static>; 21] = [
    // The space id, 6 pages, the free limit 64, the flags 33, and 4 used pages in extents of fragments.
    (
        0,
        38,
        b"\0\0\0\x17\0\0\0\0\0\0\0\x06\0\0\0\x40\0\0\0\x21\0\0\0\x04",
    ),
    // The lists of free extents, of those of fragments, and of full ones.
    (0, 62, EMPTY),
    (0, 78, b"\0\0\0\x01\0\0\0\0\0\x9E\0\0\0\0\0\x9E"),
    (0, 94, EMPTY),
    // The next segment id, and the lists of full inode pages and of others.
    (0, 110, b"\0\0\0\0\0\0\0\x03"),
    (0, 118, EMPTY),
    (0, 134, b"\0\0\0\x01\0\0\0\x02\0\x26\0\0\0\x02\0\x26"),
    // Extent 0: its node, its state, and that the pages 0 to 3 are used.
    (0, 158, ALONE),
    (0, 170, b"\0\0\0\x02\xAA"),
    (0, 175, &[0xFF; 15]),
    // The node of the inode page.
    (2, 38, ALONE),
    // The inode of segment 1, which has the root.
    (2, 50, b"\0\0\0\0\0\0\0\x01"),
    (2, 62, THREE_EMPTY),
    (2, 110, MAGIC),
    (2, 114, b"\0\0\0\x03"),
    (2, 118, &[0xFF; 124]),
    // The inode of segment 2, which has the other leaves.
    (2, 242, b"\0\0\0\0\0\0\0\x02"),
    (2, 254, THREE_EMPTY),
    (2, 302, MAGIC),
    (2, 306, NO_SLOTS),
    // The root names the inode of the leaves, and its own.
    (
        3,
        74,
        b"\0\0\0\x17\0\0\0\x02\0\xF2\0\0\0\x17\0\0\0\x02\0\x32",
    ),
];

/// The records of the rows -1, 0 and 2147483647.
pub(crate) const THREE_ROWS: [Piece<'static>; 7] = [
    // The heap top 186, five records on the heap, three in the chain.
    (3, 40, b"\0\xBA\x80\x05"),
    (3, 54, b"\0\x03"),
    // The infimum leads to 125; the supremum owns four.
    (3, 97, b"\0\x1A"),
    (3, 107, b"\x04"),
    // The records.
    (3, 120, b"\0\0\x10\0\x16\x7F\xFF\xFF\xFF"),
    (3, 142, b"\0\0\x18\0\x16\x80\0\0\0"),
    (3, 164, b"\0\0\x20\xFF\xC7\xFF\xFF\xFF\xFF"),
];

/// The record at 147 is a free one.
pub(crate) const ROW_FREED: [Piece<'static>; 5] = [
    // The first free record, and two records in the chain.
    (3, 44, b"\0\x93"),
    (3, 54, b"\0\x02"),
    // The supremum owns three, and the record at 125 leads to that at 169.
    (3, 107, b"\x03"),
    (3, 123, b"\0\x2C"),
    // No free record follows.
    (3, 145, b"\0\0"),
];

/// A root of level 1 with two node pointers, from the key 1 on to page 4 and from 4 on to page 5.
pub(crate) const TWO_POINTERS: [Piece<'static>; 9] = [
    // The heap top 146, four records on the heap, two in the chain, the level.
    (3, 40, b"\0\x92\x80\x04"),
    (3, 54, b"\0\x02"),
    (3, 64, b"\0\x01"),
    // The infimum leads to 125; the supremum owns three.
    (3, 97, b"\0\x1A"),
    (3, 107, b"\x03"),
    // The pointers, the first with the mark of the least key.
    (3, 120, b"\x10\0\x11\0\x0D\x80\0\0\x01\0\0\0\x04"),
    (3, 133, b"\0\0\x19\xFF\xE6\x80\0\0\x04\0\0\0\x05"),
    // The pages after page 4 and before page 5.
    (4, 12, b"\0\0\0\x05"),
    (5, 8, b"\0\0\0\x04"),
];

/// The leaves 4 and 5, each with two records.
pub(crate) const TWO_LEAVES: [Piece<'static>; 15] = [
    // Six pages are used, the last two by the leaves' segment.
    (0, 58, b"\0\0\0\x06"),
    (0, 175, b"\xFA"),
    (2, 306, b"\0\0\0\x04\0\0\0\x05"),
    // The heap top 164, four records on the heap, two in the chain; then the infimum, the supremum, and the rows 1 and
    // 2.
    (4, 40, b"\0\xA4\x80\x04"),
    (4, 54, b"\0\x02"),
    (4, 97, b"\0\x1A"),
    (4, 107, b"\x03"),
    (4, 120, b"\0\0\x10\0\x16\x80\0\0\x01"),
    (4, 142, b"\0\0\x18\xFF\xDD\x80\0\0\x02"),
    // Page 5: heap top 164, four records on the heap, two in the chain; then the rows 5 and 6.
    (5, 40, b"\0\xA4\x80\x04"),
    (5, 54, b"\0\x02"),
    (5, 97, b"\0\x1A"),
    (5, 107, b"\x03"),
    (5, 120, b"\0\0\x10\0\x16\x80\0\0\x05"),
    (5, 142, b"\0\0\x18\xFF\xDD\x80\0\0\x06"),
];

/// A second index without entries, with the segments 3 and 4 and the root 4.
pub(crate) const SECOND_INDEX: [Piece<'static>; 14] = [
    // Five pages are used, and the next segment id is 5.
    (0, 58, b"\0\0\0\x05"),
    (0, 117, b"\x05"),
    (0, 175, b"\xFE"),
    // The inode of segment 3, which has the root.
    (2, 434, b"\0\0\0\0\0\0\0\x03"),
    (2, 446, THREE_EMPTY),
    (2, 494, MAGIC),
    (2, 498, b"\0\0\0\x04"),
    (2, 502, &[0xFF; 124]),
    // The inode of segment 4, which has the other leaves.
    (2, 626, b"\0\0\0\0\0\0\0\x04"),
    (2, 638, THREE_EMPTY),
    (2, 686, MAGIC),
    (2, 690, NO_SLOTS),
    // The index id 42, and the inodes of the leaves and of the root.
    (4, 73, b"\x2A"),
    (
        4,
        74,
        b"\0\0\0\x17\0\0\0\x02\x02\x72\0\0\0\x17\0\0\0\x02\x01\xB2",
    ),
];

/// As many bytes of a note as a page takes.
const FULL_PART: &[u8] = &[b'x'; 16330];

/// The rest of a note of 40,000 bytes, behind two pages of it.
const LAST_PART: &[u8] = &[b'x'; 7340];

/// A row whose note has all its bytes on the pages 4, 5 and 6.
pub(crate) const LONG_NOTE: [Piece<'static>; 16] = [
    // Eight pages, of which seven are used, three by the leaves' segment.
    (0, 46, b"\0\0\0\x08"),
    (0, 58, b"\0\0\0\x07"),
    (0, 175, b"\xEA"),
    (2, 306, b"\0\0\0\x04\0\0\0\x05\0\0\0\x06"),
    // The heap top 164, three records on the heap, one in the chain; then the infimum and the supremum.
    (3, 40, b"\0\xA4\x80\x03"),
    (3, 54, b"\0\x01"),
    (3, 97, b"\0\x1C"),
    (3, 107, b"\x02"),
    // The length of the note's bytes here, the record's header and its key.
    (3, 120, b"\x14\xC0\0\0\x10\xFF\xF1\x80\0\0\x01"),
    // The note goes on on page 4 from byte 38 on with 40,000 bytes.
    (
        3,
        144,
        b"\0\0\0\x17\0\0\0\x04\0\0\0\x26\0\0\0\0\0\0\x9C\x40",
    ),
    // Each part: its length, the next page, and its bytes.
    (4, 38, b"\0\0\x3F\xCA\0\0\0\x05"),
    (4, 46, FULL_PART),
    (5, 38, b"\0\0\x3F\xCA\0\0\0\x06"),
    (5, 46, FULL_PART),
    (6, 38, b"\0\0\x1C\xAC\xFF\xFF\xFF\xFF"),
    (6, 46, LAST_PART),
];

/// The root is of level 2, over the pages 4 and 5 of level 1, and these over the leaves 6 and 7.
pub(crate) const THREE_LEVELS: [Piece<'static>; 31] = [
    // Eight pages, all used: three by the root's segment, two by the leaves'.
    (0, 46, b"\0\0\0\x08"),
    (0, 58, b"\0\0\0\x08"),
    (0, 175, b"\xAA"),
    (2, 114, b"\0\0\0\x03\0\0\0\x04\0\0\0\x05"),
    (2, 306, b"\0\0\0\x06\0\0\0\x07"),
    // The root's level, and the key of its second pointer.
    (3, 65, b"\x02"),
    (3, 141, b"\x07"),
    // The heap top 133, three records on the heap, one in the chain, the level; then the infimum, the supremum, and the
    // pointer from the key 1 on to page 6, with the mark of the least key.
    (4, 40, b"\0\x85\x80\x03"),
    (4, 54, b"\0\x01"),
    (4, 64, b"\0\x01"),
    (4, 97, b"\0\x1A"),
    (4, 107, b"\x02"),
    (4, 120, b"\x10\0\x11\xFF\xF3\x80\0\0\x01\0\0\0\x06"),
    // Page 5 with one pointer, from the key 7 on to page 7, without the minimum mark.
    (5, 40, b"\0\x85\x80\x03"),
    (5, 54, b"\0\x01"),
    (5, 64, b"\0\x01"),
    (5, 97, b"\0\x1A"),
    (5, 107, b"\x02"),
    (5, 120, b"\0\0\x11\xFF\xF3\x80\0\0\x07\0\0\0\x07"),
    // The page after page 6; the heap top 142, three records on the heap, one in the chain; then the infimum, the
    // supremum, and the row 1.
    (6, 12, b"\0\0\0\x07"),
    (6, 40, b"\0\x8E\x80\x03"),
    (6, 54, b"\0\x01"),
    (6, 97, b"\0\x1A"),
    (6, 107, b"\x02"),
    (6, 120, b"\0\0\x10\xFF\xF3\x80\0\0\x01"),
    // The page before page 7; the heap top 142, three records on the heap, one in the chain; then the infimum, the
    // supremum, and the row 9.
    (7, 8, b"\0\0\0\x06"),
    (7, 40, b"\0\x8E\x80\x03"),
    (7, 54, b"\0\x01"),
    (7, 97, b"\0\x1A"),
    (7, 107, b"\x02"),
    (7, 120, b"\0\0\x10\xFF\xF3\x80\0\0\x09"),
];

/// Extent 1, which is free.
pub(crate) const FREE_EXTENT: [Piece<'static>; 5] = [
    // 128 pages, the free limit 128.
    (0, 46, b"\0\0\0\x80\0\0\0\x80"),
    // The list of free extents.
    (0, 62, b"\0\0\0\x01\0\0\0\0\0\xC6\0\0\0\0\0\xC6"),
    // The node of the extent, its state, and that no page is used.
    (0, 198, ALONE),
    (0, 210, b"\0\0\0\x01"),
    (0, 214, &[0xFF; 16]),
];
