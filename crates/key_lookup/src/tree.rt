//! The index that is looked into.

ghost use Rattle.std.specs.Prelude.{◌≡◌, ◌==◌, if◌then◌else◌};

use column_values::FieldList;
use space_header::SpaceHeader;

/// The index that is looked into: the header of its space, its root, and the fields of its leaf records and of its node
/// pointers.
#[derive(Clone, Copy)]
pub(crate) struct Tree<'a> {
    pub header: &'a SpaceHeader,
    pub root: u32,
    pub leaf: &'a FieldList,
    pub node: &'a FieldList,
}

impl<'a> Tree<'a> {
    /// The fields of the records of a level.
    pub fn fields_on(&self, level: u16) -> &'a FieldList
        ensures { result.now ≡ (if level == 0 then self.now.leaf.now else self.now.node.now) }
    {
        if level == 0 { self.leaf } else { self.node }
    }
}
