//! The node pointer of a page through which the way goes on.

ghost use Rattle.std.specs.Prelude.{◌≡◌, ◌<◌, ◌≤◌, length};
ghost use Rattle.index_page.specs.Header.{record_count};
ghost use Rattle.tree_walk.specs.Records.{PageFacts};
ghost use Rattle.key_lookup.specs.Choice.{IsLast};

use crate::key::SearchKey;
use column_values::FieldList;
use compact_record::{Located, next_origin};
use index_page::layout::INFIMUM;
use index_page::record_count;
use page_source::{Page, read_be};
use std::cmp::Ordering;

/// A record of a page: its number in the chain, and its origin.
#[derive(Clone, Copy, Debug, PartialEq, Eq)]
pub(crate) struct Chosen {
    pub k: usize,
    pub origin: usize,
}

/// The last node pointer of a page that is the first one, or whose key isn't greater than the one that is sought.
#[tactic(auto, using(tree_walk::proofs::Records::record_at))]
pub(crate) fn choose(
    located: &mut Located,
    page: &Page,
    node: &FieldList,
    key: &SearchKey,
) -> Chosen
    requires facts { PageFacts page.now node.now }
    requires some { 0 < record_count page.now }
    requires few { node.now.keys ≤ length node.now.fields }
    requires same { length key.now ≡ node.now.keys }
    requires room { length node.now.fields ≤ located.old.members }
    ensures last { IsLast page.now node.now key.now result (record_count page.now) }
    ensures members { located.new.members ≡ located.old.members }
{
    let count = record_count(page);
    let mut at = next_origin(page, INFIMUM);
    let mut chosen = Chosen { k: 0, origin: at };
    for k in 1..count {
        at = next_origin(page, at);
        located.again(page, at, node);
        if key.compare_record(page, node, located) != Ordering::Greater {
            chosen = Chosen { k, origin: at };
        }
    }
    chosen
}
