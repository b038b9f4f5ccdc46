//! A whole table: all rules of its file, in order.
#![tactic(auto)]

mod check_file;
mod ends;
pub mod laws;
mod leaf;
mod pass;
mod record;
mod rows;
mod skipped;
mod table;
mod trees;
mod unreached;
mod value;
mod values;

pub use check_file::{check, check_table, check_whole};
pub use ends::EndsList;
pub use leaf::RowLeaf;
pub use record::check_row_values;
pub use rows::LiveRows;
pub use table::{Checked, Table, Whole};
pub use trees::MOST_FIELDS;
pub use value::{split_local, text_of};
