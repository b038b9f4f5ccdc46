//! What is saved out of a tablespace that was carved out of an image, as the contract of a function that does nothing.
#![tactic(auto)]

mod laws;

pub use laws::carved_tables_lose_nothing;
