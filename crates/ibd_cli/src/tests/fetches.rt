//! Which pages the commands fetch, in what order. The lines of `fetches` in the crate `cases` say so of more files.

use super::command::{CHECK, Command, DUMP};
use page_source::LoggedPages;
use std::alloc::Global;
use std::process::Abort;
use std::test::Fail;
use vectors::{Which, file};

/// More pages than any command here fetches.
const ROOM: usize = 20;

/// Fails the test where the command fetches other pages of the file with three rows.
fn expect_fetches(
    rt: &impl Abort,
    alloc: Global,
    words: &[&str],
    want: &[u32],
) -> Result<(), Fail> {
    let mut file = LoggedPages::new(alloc, file(alloc, Which::B)?, ROOM)?;
    let command = Command {
        words,
        ..Command::dump(b"")
    };
    command.run_over(alloc, &mut file)?;
    assert!(rt; file.log() == want);
    Ok(())
}

/// Page 0 as the head and for its descriptors, the inode page, the other used pages; the root as a page of its tree,
/// and for the values of its rows; and of a dump for its rows once more.
#[test]
fn fetches_the_pages_of_its_parts(rt: HostRuntime) -> Result<(), Fail> {
    let alloc = rt.alloc();
    expect_fetches(&rt, alloc, &CHECK, &[0, 0, 2, 0, 1, 3, 3, 3])?;
    expect_fetches(&rt, alloc, &DUMP, &[0, 0, 2, 0, 1, 3, 3, 3, 3])
}
