//! The index that is walked.

ghost use Rattle.std.specs.Prelude.{◌≡◌, ◌==◌, if◌then◌else◌};

use column_values::FieldList;
use space_audit::Space;

/// The index that is walked: its checked space, its root, and the fields of its leaf records and of its node pointers.
#[derive(Clone, Copy)]
pub(crate) struct Tree<'a> {
    pub space: &'a Space,
    pub root: u32,
    pub leaf: &'a FieldList,
    pub node: &'a FieldList,
}

impl<'a> Tree<'a> {
    /// The fields of the records of a level.
    pub fn fields_on(&self, level: u16) -> &'a FieldList
        ensures { result.now ≡ (if level == 0 then self.now.leaf.now else self.now.node.now) }
    {
        if level == 0 { self.leaf } else { self.node }
    }
}
