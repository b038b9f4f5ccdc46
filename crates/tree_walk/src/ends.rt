//! What is known of a tree that was walked.

ghost use Rattle.std.specs.Prelude.{◌≡◌};
ghost use Rattle.tree_walk.specs.Ends.{lies_whole};

use crate::level::Level;
use crate::tree::root::Top;

/// What a walk found besides the numbers. It is private, so that no numbers are made elsewhere.
#[derive(Clone, Copy, Debug, PartialEq, Eq)]
struct Made {
    whole: bool,
}

/// The numbers of a tree. Only the walk makes one.
#[derive(Clone, Copy, Debug, PartialEq, Eq)]
pub struct TreeEnds {
    /// The index id of the root.
    pub index_id: u64,
    /// The level of the root; 0 where it is a leaf.
    pub root_level: u16,
    /// The number of the leftmost leaf.
    pub first_leaf: u32,
    /// How many leaves there are.
    pub leaves: u32,
    /// The segment of the leaves, by its position among the segments of the space.
    pub leaf_segment: u32,
    /// The segment of the pages above the leaves.
    pub top_segment: u32,
    /// How many leaf records have no delete mark.
    pub live: u64,
    /// How many leaf records have the delete mark.
    pub deleted: u64,
    made: Made,
}

impl TreeEnds {
    /// The numbers of a tree with this root and this leaf level.
    pub(crate) fn of(top: Top, row: Level) -> TreeEnds
        ensures id { result.index_id ≡ top.index_id }
        ensures level { result.root_level ≡ top.level }
        ensures first { result.first_leaf ≡ row.first }
        ensures leaves { result.leaves ≡ row.pages }
        ensures leaf { result.leaf_segment ≡ top.leaf }
        ensures upper { result.top_segment ≡ top.upper }
        ensures live { result.live ≡ row.tally.live }
        ensures deleted { result.deleted ≡ row.tally.deleted }
        ensures whole { lies_whole result ≡ row.tally.whole }
    {
        TreeEnds {
            index_id: top.index_id,
            root_level: top.level,
            first_leaf: row.first,
            leaves: row.pages,
            leaf_segment: top.leaf,
            top_segment: top.upper,
            live: row.tally.live,
            deleted: row.tally.deleted,
            made: Made {
                whole: row.tally.whole,
            },
        }
    }

    /// Whether the values of all leaf records are known to lie whole on their leaves, in no more bytes than their types
    /// take. After false nothing is said.
    pub fn lies_whole(&self) -> bool
        ensures { result ≡ lies_whole self.now }
    {
        self.made.whole
    }
}
