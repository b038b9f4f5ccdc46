//! The inodes of a tablespace, one for each segment.
#![tactic(auto)]

mod inode;
mod inodes;
pub mod laws;
pub mod layout;
mod read;
mod segments;
mod walk;

pub use inode::{Inode, read_inode, write_inode};
pub use inodes::Inodes;
pub use read::read_inodes;
