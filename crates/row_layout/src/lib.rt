//! The rows of a tablespace that is built: how a row is stored as a clustered record, which of its columns go off the
//! page, and its entries in the other indexes.
#![tactic(auto)]

pub mod laws;
