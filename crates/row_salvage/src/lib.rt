//! The rows of a leaf that stands by itself, in a file that may be broken elsewhere: which of their values are lost and
//! why, and their lines.
#![tactic(auto)]

mod chain_check;
mod column_check;
mod loss_lines;
mod partial_line;
mod row_check;
mod saved_line;

pub use loss_lines::{put_broken, put_row_losses, put_unread};
pub use row_check::{ColumnLosses, check_columns};
pub use saved_line::put_saved_row;
