//! The space of a tablespace that is built: the numbers of its pages, by how many pages each segment has, and the
//! three pages at its front with the header, the extents and the segments.
#![tactic(auto)]

mod fields;
mod heads;
pub mod laws;
mod numbers;
mod runs;

pub use fields::BUILT_SPACE;
pub use heads::{put_bitmap_page, put_header_page, put_inode_page};
pub use numbers::{extents_needed, is_shape, segment_page};
