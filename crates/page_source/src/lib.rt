//! Pages of a tablespace file and the numbers on them, the rules' names, and the objects that
//! reach outside: a file of pages, a text that is read, a text that is written, a file that is made.
#![tactic(auto)]

mod bytes;
mod checks;
mod counted;
mod errors;
mod files;
mod memory;
mod objects;
mod page;
mod pieces;
mod rule;
mod steps;
mod streams;
mod transfers;

pub use bytes::ByteList;
pub use checks::{Halt, Stop};
pub use errors::{Failed, NoMemory};
pub use files::{FileBytes, FilePages, FileStore};
pub use memory::{
    ChangingPages, Fails, LoggedPages, MemoryBytes, MemoryPages, MemorySink, MemoryStore, PageMap,
    SparsePages,
};
pub use objects::{ByteSink, ByteSource, PageSource, PageStore};
pub use page::{FIL_NULL, PAGE_SIZE, Page, read_be, write_be};
pub use pieces::put_pieces;
pub use rule::{Fault, Rule};
pub use steps::Steps;
pub use streams::StdSink;
