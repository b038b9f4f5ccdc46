//! Checks a table and writes its rows.
#![tactic(auto)]

mod buffer;
mod cell;
mod dump_table;
pub mod laws;
mod line;
mod long;
mod reader;
mod row;
mod rows;
mod stop;

pub use buffer::Buffer;
pub use cell::{Cell, put_value};
pub use dump_table::dump;
pub use line::put_line;
pub use long::ChainRoom;
pub use reader::RowReader;
pub use row::{Row, put_row};
pub use stop::{DumpStop, WriteStop};
