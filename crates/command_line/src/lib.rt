//! What the programs read of the command line that starts them: its words, the schema text that a word names, and the
//! lines that refuse either.
#![tactic(auto)]

mod arguments;
mod lines;
mod schema_file;
mod words;

pub use arguments::read_words;
pub use lines::{put_fault, put_refusal, why_name};
pub use schema_file::{SchemaStop, read_schema};
pub use words::{Words, decimal_id};
