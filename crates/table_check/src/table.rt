//! What is known of a checked table.

use crate::ends::EndsList;
use tree_walk::TreeEnds;

/// The numbers of a tablespace in which no rule is broken.
#[derive(Clone, Copy, Debug, PartialEq, Eq)]
pub struct Checked {
    /// The size that page 0 states, in pages.
    pub pages: u32,
    /// How many pages below the stated size are used.
    pub used: u32,
    /// How many records of the clustered leaves have no delete mark.
    pub rows: u64,
    /// How many records of the clustered leaves have the delete mark.
    pub deleted: u64,
    /// How many used pages of segments are in no tree and in no chain of a live row.
    pub unreached: u32,
}

/// A checked table, and what reading its rows needs besides.
#[derive(Clone, Copy, Debug, PartialEq, Eq)]
pub struct Table {
    /// The numbers of the file.
    pub checked: Checked,
    /// The space id.
    pub space: u32,
    /// The clustered tree.
    pub clustered: TreeEnds,
    /// How many pages the values of the live rows go on in.
    pub chain_pages: u32,
}

/// A checked table with the ends of all its trees, by which their rows can be read.
#[derive(Debug, Drop)]
pub struct Whole {
    pub table: Table,
    /// The ends of the tree of each index, in the order of the schema.
    pub ends: EndsList,
}
