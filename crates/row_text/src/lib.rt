//! Rows as INSERT lines.
#![tactic(auto)]

mod calendar;
mod escape;
pub mod laws;
mod plain;
mod read;
mod row;
mod write;

pub use read::{read_key, read_row};
pub use row::{Row, RowError};
pub use write::{RowWriter, write_row};
