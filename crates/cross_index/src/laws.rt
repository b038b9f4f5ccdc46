//! The law of the definitions, the contract of a function that does nothing.

ghost use Rattle.cross_index.specs.Laws.{HasOneDifference};

use table_check::laws::{live_rows_rise, trees_are_walked};
use tree_walk::laws::rows_can_be_read;

/// In a sound file the secondary indexes and the rows differ in one way, or not at all.
pub fn has_one_difference()
    ensures { HasOneDifference }
{
    live_rows_rise();
    rows_can_be_read();
    trees_are_walked();
}
