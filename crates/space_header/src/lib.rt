//! The space header on page 0, and the doubly linked lists of a tablespace: their bases, their nodes,
//! and the extents of a list.
#![tactic(auto)]

mod address;
mod header;
pub mod laws;
pub mod layout;
mod list;

pub use address::{Address, Base, Node, is_null, read_base, read_node, write_base, write_node};
pub use header::SpaceHeader;
pub use list::{
    DESCRIBED_EXTENTS, DESCRIBED_PAGES, DESCRIPTOR_SIZE, ExtentList, FIRST_DESCRIPTOR, FollowError,
    descriptor_address, follow,
};
