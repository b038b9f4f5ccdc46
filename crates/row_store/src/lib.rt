//! Reads the rows of a text, and keeps them as they are stored.
#![tactic(auto)]

mod fitting;
mod line_reader;
mod marks;
mod next_row;
mod row_fields;
mod row_shape;
mod rows;
mod stop;
mod stored;

pub use rows::read_rows;
pub use stop::{RowsStop, RowsWhy};
pub use stored::StoredRows;
