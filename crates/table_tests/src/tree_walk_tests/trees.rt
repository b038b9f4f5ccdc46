//! A walk over a tree of three levels. What breaks a rule stands in lines of the crate `cases`.

use super::file::file_with;
use super::plan::{Piece, THREE_LEVELS};
use super::walks::{audited, walked};
use page_source::{ChangingPages, Halt, Rule};
use std::marker::Brand;
use std::sync::ledger::Blank;
use std::test::Fail;

#[test]
fn a_tree_of_three_levels_has_these_ends(rt: HostRuntime) -> Result<(), Fail> {
    let alloc = rt.alloc();
    let mut file = file_with(&rt, alloc, &THREE_LEVELS, &[])?;
    let space = audited::<ChangingPages, Brand>(alloc, &mut file, Blank::new(1))?;
    let ends = walked::<ChangingPages, Brand>(alloc, &space, &mut file, Blank::new(1))??;
    assert!(rt; (ends.index_id, ends.root_level, ends.first_leaf, ends.leaves) == (41, 2, 6, 2));
    assert!(rt; (ends.leaf_segment, ends.top_segment) == (1, 0));
    Ok(())
}

/// The first leaf leads to a page of the level above.
#[test]
fn names_a_broken_rule(rt: HostRuntime) -> Result<(), Fail> {
    let alloc = rt.alloc();
    let edits: [(u32, Piece); 1] = [(6, (12, b"\x00\x00\x00\x05"))];
    let mut file = file_with(&rt, alloc, &THREE_LEVELS, &edits)?;
    let space = audited::<ChangingPages, Brand>(alloc, &mut file, Blank::new(1))?;
    let answer = walked::<ChangingPages, Brand>(alloc, &space, &mut file, Blank::new(1))?;
    assert!(rt; answer.map(|ends| ends.leaves) == Err(Halt::Broken(Rule::Sibling.at(6))));
    Ok(())
}
