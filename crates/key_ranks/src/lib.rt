//! Rows in the order of their keys.
#![tactic(auto)]

mod fronts;
mod numbers;
mod order;
mod rank;
mod ranks;
mod row_keys;
mod ties;

pub use order::order_of_rows;
pub use row_keys::RowKeys;
