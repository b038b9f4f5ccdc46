//! Values that are too long for their record and go on in pages of their own.
#![tactic(auto)]

mod check;
mod fetch;
pub mod laws;
pub mod layout;
mod pages;
pub mod part;
mod reader;
mod reference;
mod write;

pub use check::{check_chain, check_chain_in};
pub use fetch::fetch_framed;
pub use pages::ChainPages;
pub use reader::ChainReader;
pub use reference::{Reference, read_reference, write_reference};
pub use write::write_chain;
