//! The rows of a table, or its deleted or free records, out of a file that may be broken anywhere.
#![tactic(auto)]

mod file;
mod index_id;
mod page;
mod records;
mod report;
mod room;
mod rows;
mod search;

pub use file::{salvage, salvage_regardless};
