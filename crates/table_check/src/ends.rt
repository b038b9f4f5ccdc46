//! The ends of the trees of a table.

ghost use Rattle.std.specs.Prelude.{◌≡◌, ◌++◌, ◌∷◌, [], OnOk};

use page_source::NoMemory;
use std::alloc::Global;
use std::marker::Model;
use tree_walk::TreeEnds;

/// The ends of trees, in the order of the indexes.
#[derive(Debug, Drop)]
pub struct EndsList {
    items: Vec<TreeEnds>,
}

impl Model for EndsList {
    ghost use Rattle.std.specs.Prelude.{List};
    ghost use Rattle.tree_walk.specs.declared.ends.TreeEnds.{TreeEnds};

    ghost Value = { List TreeEnds };

    ghost view = { λ list. list.items.items };
}

impl EndsList {
    /// No tree yet.
    pub(crate) fn new(alloc: Global) -> EndsList
        ensures { result ≡ [] }
    {
        EndsList {
            items: Vec::new(alloc),
        }
    }

    /// One more tree.
    pub(crate) fn push(&mut self, ends: TreeEnds) -> Result<(), NoMemory>
        ensures { OnOk result (self.new ≡ self.old ++ ends ∷ []) }
    {
        self.items.push(ends)?;
        Ok(())
    }

    /// The ends of all trees.
    pub fn items(&self) -> &[TreeEnds]
        ensures { result.now ≡ self.now }
    {
        &self.items
    }
}
