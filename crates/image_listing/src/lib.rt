//! What stands in a raw image of a disk: how many pages of each space, and of each of its indexes.
#![tactic(auto)]

mod catalogue;
mod line_text;
mod lines;
mod listing;

pub use listing::{ListStop, list};
