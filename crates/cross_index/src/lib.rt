//! Compares the entries of the secondary indexes with the rows.
#![tactic(auto)]

mod ahead;
mod cross_check;
mod crossed;
mod entries;
mod gather;
mod gathered;
mod indexes;
mod kept;
mod kept_values;
pub mod laws;
mod long;
mod numbers;
mod order;

pub use cross_check::cross;
pub use crossed::{CrossStop, Crossed};
