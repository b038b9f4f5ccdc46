//! The schema of a table, as a text and as its indexes' fields.
#![tactic(auto)]

mod checks;
mod columns;
mod errors;
mod fields;
mod keys;
pub mod laws;
mod line;
mod names;
mod part;
mod print;
mod read;
mod table;
mod types;
mod words;

pub use columns::{column_fields, entry_fields, is_among, push_entry_fields};
pub use errors::{SchemaError, SchemaWhy};
pub use table::{Column, ColumnList, Format, IndexDef, Schema};
pub use words::{FIRST_ROOT, decimal_number};
