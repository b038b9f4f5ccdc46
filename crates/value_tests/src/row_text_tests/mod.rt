//! Lines of rows, and texts of keys.

mod lines;
mod rows;
