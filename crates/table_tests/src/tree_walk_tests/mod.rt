//! Walks over small trees: their ends, the pages that are fetched, and the rows.

mod fetches;
mod file;
mod leaves;
mod plan;
mod trees;
mod walks;
