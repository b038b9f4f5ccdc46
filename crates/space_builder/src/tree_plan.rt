//! What a tree is put by, and where its pages stand.

ghost use Rattle.std.specs.Prelude.{◌≡◌, ◌<◌};
ghost use Rattle.tree_walk.specs.TreeChecks.{before, after};
ghost use Rattle.space_builder.specs.calls.TreePlan.{IsPlan, HasPage, fields_in, number_in, numbers_in, spot_in};

use crate::places::tree_number;
use crate::tree_pages::TreeSpot;
use column_values::FieldList;
use page_source::FIL_NULL;

/// What a tree is put by.
#[derive(Clone, Copy, Debug)]
pub(crate) struct TreePlan<'a> {
    /// The index of the tree, counted from 0.
    pub(crate) index: u16,
    /// The fields of the index's leaf records and of its node pointers.
    pub(crate) leaf: &'a FieldList,
    pub(crate) node: &'a FieldList,
    /// How many pages each segment of the tablespace has.
    pub(crate) sizes: &'a [u32],
    /// How many pages each level of the tree has, from the leaves up.
    pub(crate) counts: &'a [u32],
}

impl<'a> TreePlan<'a> {
    /// The fields of the records of a level.
    pub(crate) fn fields_on(&self, level: usize) -> &'a FieldList
        ensures { result.now ≡ fields_in self.now level }
    {
        if level == 0 { self.leaf } else { self.node }
    }

    /// The number of page `k` of a level.
    #[tactic(auto, unfolding(crate::specs::calls::TreePlan::number_in))]
    pub(crate) fn number(&self, level: usize, k: u32) -> u32
        requires plan { IsPlan self.now }
        requires page { HasPage self.now level k }
        ensures { result ≡ number_in self.now level k }
    {
        tree_number(self.sizes, self.counts, usize::from(self.index), level, k)
    }

    /// The number of the page before page `k` of a level.
    #[tactic(auto, using(crate::proofs::Spots::before_is))]
    fn number_before(&self, level: usize, k: u32) -> u32
        requires plan { IsPlan self.now }
        requires page { HasPage self.now level k }
        ensures { result ≡ before (numbers_in self.now level) k }
    {
        if k == 0 {
            FIL_NULL
        } else {
            self.number(level, k - 1)
        }
    }

    /// The number of the page after page `k` of a level.
    #[tactic(auto, using(crate::proofs::Spots::after_is, crate::proofs::Spots::none_after))]
    fn number_after(&self, level: usize, k: u32) -> u32
        requires plan { IsPlan self.now }
        requires page { HasPage self.now level k }
        ensures { result ≡ after (numbers_in self.now level) k }
    {
        let width = self.counts[level];
        if k + 1 < width {
            self.number(level, k + 1)
        } else {
            FIL_NULL
        }
    }

    /// Where page `k` of a level stands.
    #[tactic(auto, unfolding(crate::specs::calls::TreePlan::spot_in))]
    pub(crate) fn spot(&self, level: usize, k: u32) -> TreeSpot
        requires plan { IsPlan self.now }
        requires page { HasPage self.now level k }
        ensures { result ≡ spot_in self.now level k }
    {
        TreeSpot {
            number: self.number(level, k),
            prev: self.number_before(level, k),
            next: self.number_after(level, k),
            index: self.index,
            root: level == self.counts.len() - 1,
        }
    }
}
