//! One page of an index: the rules of its header, its records, their lists and their keys (page0page).
#![tactic(auto)]

mod chain;
mod directory;
mod fault;
mod header;
mod heap_numbers;
mod keys;
pub mod laws;
pub mod layout;
mod marks;
mod minimum_mark;
mod pass;
mod records;
mod room;
mod spelling;

pub use fault::{Scratch, page_fault};
pub use header::record_count;
pub use minimum_mark::{mark_fault, next_record};
pub use records::Records;
