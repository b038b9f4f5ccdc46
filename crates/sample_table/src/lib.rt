//! The made table: built, checked and dumped in memory.
#![tactic(auto)]

mod answer;
mod made;
mod objects;
mod row;
mod text;

pub use answer::sample;
pub use made::{Sample, SampleStop};
