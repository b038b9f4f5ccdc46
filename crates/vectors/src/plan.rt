//! Which files there are, and of which pieces they are made.

ghost use Rattle.std.specs.Prelude.{◌≡◌};
ghost use Rattle.vectors.specs.Sizes.{pages_of};

use crate::pieces::{
    FREE_EXTENT, LONG_NOTE, NO_ROWS, Piece, ROW_FREED, SECOND_INDEX, THREE_LEVELS, THREE_ROWS,
    TWO_LEAVES, TWO_POINTERS,
};

/// The files, all of the space 23. Their rows have a key of four bytes, and zeros in the hidden fields.
#[derive(Clone, Copy, Debug, PartialEq, Eq)]
pub enum Which {
    /// A table without rows: six pages, of which the last two are zeros.
    A,
    /// A with the rows -1, 0 and 2147483647.
    B,
    /// B, where the record of row 0 was freed.
    BF,
    /// A with a root over two leaves, and the rows 1, 2, 5 and 6.
    C,
    /// A with a second index on another column.
    D,
    /// A with two pages more, and the row 1, whose note of 40,000 bytes goes on on three pages.
    E,
    /// A with two pages more, and three levels over the rows 1 and 9.
    G,
    /// A with 128 pages, the last 64 of which are a free extent.
    L,
}

/// How a file is made.
#[derive(Clone, Copy)]
pub(crate) struct Plan {
    pub(crate) pages: u32,
    /// The types of the file's first pages; the others are zeros.
    pub(crate) kinds: &'static [u16],
    /// What is put on the file's pages, in this order.
    pub(crate) parts: &'static [&'static [Piece<'static>]],
}

/// The type of an index page.
pub(crate) const INDEX: u16 = 17855;

/// The type of a page in which a long value goes on.
const BLOB: u16 = 10;

/// The space header, the bitmap of the insert buffer, the inodes and the root of the table.
const KINDS: [u16; 4] = [8, 5, 3, INDEX];

/// The schema of the file's table.
pub fn schema(which: Which) -> &'static str {
    match which {
        Which::D => {
            "table t dynamic\ncolumn id int notnull\ncolumn a varchar 10 null\nclustered root 3 id\nindex by_a root 4 a\n"
        }
        Which::E => {
            "table t dynamic\ncolumn id int notnull\ncolumn note text notnull\nclustered root 3 id\n"
        }
        _ => "table t dynamic\ncolumn id int notnull\nclustered root 3 id\n",
    }
}

/// How the file is made.
pub(crate) fn plan_of(which: Which) -> Plan
    ensures { result.pages ≡ pages_of which }
{
    match which {
        Which::A => PLAN_A,
        Which::B => PLAN_B,
        Which::BF => PLAN_BF,
        Which::C => PLAN_C,
        Which::D => PLAN_D,
        Which::E => PLAN_E,
        Which::G => PLAN_G,
        Which::L => PLAN_L,
    }
}

const PLAN_A: Plan = Plan {
    pages: 6,
    kinds: &KINDS,
    parts: &[&NO_ROWS],
};

const PLAN_B: Plan = Plan {
    pages: 6,
    kinds: &KINDS,
    parts: &[&NO_ROWS, &THREE_ROWS],
};

const PLAN_BF: Plan = Plan {
    pages: 6,
    kinds: &KINDS,
    parts: &[&NO_ROWS, &THREE_ROWS, &ROW_FREED],
};

const PLAN_C: Plan = Plan {
    pages: 6,
    kinds: &[8, 5, 3, INDEX, INDEX, INDEX],
    parts: &[&NO_ROWS, &TWO_POINTERS, &TWO_LEAVES],
};

const PLAN_D: Plan = Plan {
    pages: 6,
    kinds: &[8, 5, 3, INDEX, INDEX],
    parts: &[&NO_ROWS, &SECOND_INDEX],
};

const PLAN_E: Plan = Plan {
    pages: 8,
    kinds: &[8, 5, 3, INDEX, BLOB, BLOB, BLOB],
    parts: &[&NO_ROWS, &LONG_NOTE],
};

const PLAN_G: Plan = Plan {
    pages: 8,
    kinds: &[8, 5, 3, INDEX, INDEX, INDEX, INDEX, INDEX],
    parts: &[&NO_ROWS, &TWO_POINTERS, &THREE_LEVELS],
};

const PLAN_L: Plan = Plan {
    pages: 128,
    kinds: &KINDS,
    parts: &[&NO_ROWS, &FREE_EXTENT],
};
