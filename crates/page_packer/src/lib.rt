//! Fills an index page with records (page0page).
#![tactic(auto)]

mod finish;
pub mod laws;
mod packer;
mod parts;

pub use packer::{Heads, Packer};
