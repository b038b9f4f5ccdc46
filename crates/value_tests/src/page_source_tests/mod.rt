//! The outside objects, in memory and as real files and streams, and the numbers on a page.

mod adapters;
mod interrupted;
mod memory;
mod streams;
