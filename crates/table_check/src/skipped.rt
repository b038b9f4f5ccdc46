//! Rows whose values need no look.

ghost use Rattle.std.specs.Prelude.{◌≡◌, IsTrue, true};
ghost use Rattle.column_values.specs.AnyBytes.{TakeAnyBytes};
ghost use Rattle.tree_walk.specs.Ends.{lies_whole};

use column_values::{FieldList, take_any_bytes};
use tree_walk::TreeEnds;

/// Whether the values of a tree's rows need no look: all lie whole on their leaves, in no more bytes than their types
/// take, and any such bytes spell a value.
pub(crate) fn can_skip_values(ends: &TreeEnds, fields: &FieldList) -> bool
    ensures { IsTrue result → (lies_whole ends.now ≡ true) × TakeAnyBytes fields.now }
{
    ends.lies_whole() && take_any_bytes(fields)
}
