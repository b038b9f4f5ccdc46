//! Records, by their null bits and lengths, and where their fields lie. The answers are those of a reading apart
//! from this one. What comes of other null bits and lengths is seen in lines of the crate `cases`.

use super::lists::Shape;

/// Where a record begins, a letter for each field (`n` null, `x` external, `-` neither), and where each field ends.
pub type Want = (usize, &'static [u8], &'static [usize]);

/// The fields, the origin, the bytes below the header, and what is read.
pub type Record = (Shape, usize, &'static [u8], Option<Want>);

/// A reference to other pages; a null, a text and a reference; a record at the end of the page; and a length that has
/// one byte too many.
pub const RECORDS: [Record; 5] = [
    (
        Shape::Wide,
        200,
        &[0x14, 0xC0],
        Some((193, b"---x", &[204, 210, 217, 237])),
    ),
    (
        Shape::Notes,
        200,
        &[5, 1],
        Some((193, b"---n-", &[204, 210, 217, 217, 222])),
    ),
    (
        Shape::Notes,
        200,
        &[0x14, 0xC3, 3, 0],
        Some((191, b"----x", &[204, 210, 217, 220, 1008])),
    ),
    (
        Shape::Wide,
        16384,
        &[2],
        Some((16378, b"----", &[16388, 16394, 16401, 16403])),
    ),
    (Shape::Wide, 200, &[0x7F, 0x80], None),
];
