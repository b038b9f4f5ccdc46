//! The frame of a page: the fields of its header and trailer that pages of all types have
//! (fil0fil.h), with the checksums of the rest.
#![tactic(auto)]

mod body;
mod crc;
mod frame;
pub mod kinds;
pub mod laws;
pub mod layout;
mod rnd;
pub mod tables;

pub use crc::crc32c;
pub use frame::{SumKind, frame_fault, kind, page_sum, seal, seal_as, sum_kind};
pub use rnd::fold;
