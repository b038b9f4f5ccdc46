//! A page by itself, of a file that may be broken elsewhere: whether it stands, whether it is free, and what it is to
//! an index whose rows are looked for.
#![tactic(auto)]

mod descriptors;
pub mod laws;
mod leaf;
mod standing;
mod verdict;

pub use descriptors::Descriptors;
pub use leaf::leaf_verdict;
pub use standing::{MOST_PAGES, index_id, space_id, stands};
pub use verdict::Verdict;
