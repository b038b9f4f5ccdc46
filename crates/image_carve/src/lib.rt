//! One tablespace put together of the pages that stand in a raw image of a disk, each in its newest version.
#![tactic(auto)]

mod carve;
mod file;
pub mod laws;
mod lsns;
mod memory;
mod taken;

pub use carve::take;
pub use file::PageFile;
pub use memory::MemoryFile;
pub use taken::{TakeStop, Taken};
