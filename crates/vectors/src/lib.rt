//! Small files of tables, put together byte by byte, for the tests of the other crates. The program doesn't use them.
#![tactic(auto)]

mod build;
mod pieces;
mod plan;

pub use build::{edited, file};
pub use pieces::Piece;
pub use plan::{Which, schema};
