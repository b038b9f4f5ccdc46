//! Builds a tablespace.
#![tactic(auto)]

mod builder;
mod built;
mod clustered;
mod counts;
mod entries;
mod head_pages;
pub mod laws;
mod levels;
mod order;
mod places;
mod plan;
mod secondary;
mod space;
mod tree_pages;
mod tree_plan;
mod values;

pub use builder::build;
pub use built::{BuildStop, Built};
pub use row_store::RowsWhy;
