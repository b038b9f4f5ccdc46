//! Which pages a walk fetches, and how often.

use super::file::bytes_with;
use super::plan::{Plan, THREE_LEVELS, TWO_LEVELS};
use super::walks::{audited, walked};
use page_source::LoggedPages;
use std::alloc::Global;
use std::marker::Brand;
use std::process::Abort;
use std::sync::ledger::Blank;
use std::test::Fail;

/// The file of the plan behind a walk that finds two leaves, and how many pages were fetched before it.
fn walked_file(rt: &impl Abort, alloc: Global, plan: &Plan) -> Result<(LoggedPages, usize), Fail> {
    let bytes = bytes_with(rt, alloc, plan, &[])?;
    let mut file = LoggedPages::new(alloc, bytes, 200)?;
    let space = audited::<LoggedPages, Brand>(alloc, &mut file, Blank::new(1))?;
    let before = file.log().len();
    let ends = walked::<LoggedPages, Brand>(alloc, &space, &mut file, Blank::new(1))??;
    assert!(rt; ends.leaves == 2);
    Ok((file, before))
}

/// How often the page stands in the list.
fn times(pages: &[u32], n: usize) -> usize {
    pages.iter().filter(|page| **page as usize == n).count()
}

#[test]
fn fetches_a_leaf_once_and_a_page_above_twice(rt: HostRuntime) -> Result<(), Fail> {
    let table: [(&Plan, [usize; 8]); 2] = [
        (&TWO_LEVELS, [0, 0, 0, 2, 1, 1, 0, 0]),
        (&THREE_LEVELS, [0, 0, 0, 2, 2, 2, 1, 1]),
    ];
    for (plan, wanted) in table {
        let (file, before) = walked_file(&rt, rt.alloc(), plan)?;
        let fetched = file.log().get(before..).unwrap_or(&[]);
        for (n, most) in wanted.iter().enumerate() {
            assert!(rt; times(fetched, n) <= *most, "page {n} of {}", plan.pages);
        }
    }
    Ok(())
}
