//! The head of a tablespace and its extent descriptors: which pages are used, and in what extents.
#![tactic(auto)]

mod checks;
mod descriptors;
mod extent;
mod extents;
mod flags;
mod head;
pub mod laws;
pub mod layout;
pub mod states;

pub use descriptors::read_extents;
pub use extent::{Extent, read_extent, write_extent};
pub use extents::{Extents, is_system_page};
pub use flags::FlagList;
pub use head::check_head;
