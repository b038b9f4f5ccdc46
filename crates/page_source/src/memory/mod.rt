//! The four outside objects in memory. Each tells all that it holds, and fails where it is told to.
//! Of files there are more: one of which most pages are zeros, one that keeps which pages were
//! fetched, and one that changes and tells nothing.

mod bytes;
mod calls;
mod changing;
mod logged;
mod map;
mod pages;
mod sink;
mod sparse;
mod store;

pub use bytes::MemoryBytes;
pub use calls::Fails;
pub use changing::ChangingPages;
pub use logged::LoggedPages;
pub use map::PageMap;
pub use pages::MemoryPages;
pub use sink::MemorySink;
pub use sparse::SparsePages;
pub use store::MemoryStore;
