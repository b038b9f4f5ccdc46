//! The pages that stand in a raw image of a disk, one after another: it is read once, from front to end, and each
//! sector is judged by itself.
#![tactic(auto)]

mod found;
mod scanner;
mod window;

pub use found::lsn;
pub use scanner::{FoundPage, Scanner};
