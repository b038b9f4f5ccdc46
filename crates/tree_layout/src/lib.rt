//! The trees of a tablespace that is built: how the entries of an index are divided into levels and pages, and where
//! these stand in the segments of the index.
#![tactic(auto)]

mod cuts;
pub mod laws;

pub use cuts::{Cut, Weight, count_levels};
