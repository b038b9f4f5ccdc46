//! The lines of crafted records.

mod faults;
mod lines;
