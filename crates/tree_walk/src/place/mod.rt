//! The checks of one place: of a node pointer, and of the page that it leads to.

mod child_place;
mod keys;
mod page;
mod records;
pub(crate) mod tally;

pub(crate) use child_place::{is_place, is_root, is_used_by};
pub(crate) use page::check_neighbours;
pub use page::check_node;
pub(crate) use records::read_record;

/// Where a page stands in its tree, and between which neighbours.
#[derive(Clone, Copy, Debug, PartialEq, Eq)]
pub struct Stand {
    pub page: u32,
    pub index_id: u64,
    pub level: u16,
    pub root: bool,
    pub leftmost: bool,
    pub previous: u32,
    pub next: u32,
}
