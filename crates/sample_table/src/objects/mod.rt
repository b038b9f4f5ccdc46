//! The objects that the made table goes through, all in memory. Each fails for want of memory alone, or never.

mod lines;
mod pages;
mod sink;
mod store;

pub(crate) use lines::LineText;
pub(crate) use pages::WholePages;
pub(crate) use sink::GrowingSink;
pub(crate) use store::GrowingStore;
