//! Whether a tablespace is sound by the rules 1 to 26, which of its pages belongs to whom, and of what
//! type each is.
#![tactic(auto)]

mod audit_file;
mod counts;
mod frames;
mod homes;
pub mod laws;
mod lists;
mod marks;
mod numbering;
mod owner;
mod page_claims;
mod page_owners;
mod space;

pub use audit_file::audit;
pub use marks::Marks;
pub use owner::Owner;
pub use space::Space;
