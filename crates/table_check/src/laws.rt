//! Laws of the definitions, each the contract of a function that does nothing.

ghost use Rattle.table_check.specs.Laws.{FirstHasAnAnswer, FirstHasOneAnswer, TreeChecksAreTrees, ValueChecksAreValues};
ghost use Rattle.table_check.specs.Laws.{ChecksAreValidity, LiveRowsRise, RowsRise, TreesAreWalked};
ghost use Rattle.table_check.specs.Laws.{UsedPagesHaveOneOwner};

use offpage_chain::laws::{checks_are_whole, has_one_chain};
use schema_text::laws::lists_are_of_one_index;
use space_audit::laws::audit_is_soundness;
use tree_walk::laws::{
    checks_are_wholeness, keys_rise_over_leaves, levels_have_the_pages, rows_by_leaves,
};

/// The checks of a file against a schema have one answer at the most: the first broken one, or none.
pub fn first_has_one_answer()
    ensures { FirstHasOneAnswer }
{}

/// The checks of each file against each schema have an answer: the first broken one, or none.
pub fn first_has_an_answer()
    ensures { FirstHasAnAnswer }
{}

/// The checks of trees and segments find nothing exactly where each index has a whole tree, no page is in two of them,
/// and each segment is named once.
pub fn tree_checks_are_trees()
    ensures { TreeChecksAreTrees }
{
    lists_are_of_one_index();
    checks_are_wholeness();
    levels_have_the_pages();
}

/// Where the trees and the space are sound, the checks of values and of unreached pages find nothing exactly where
/// each value is whole, no page is in two of them or in a tree, and all other pages of segments are left-overs.
pub fn value_checks_are_values()
    ensures { ValueChecksAreValues }
{
    has_one_chain();
    checks_are_whole();
    levels_have_the_pages();
}

/// All checks find nothing exactly in a sound file.
pub fn checks_are_validity()
    ensures { ChecksAreValidity }
{
    audit_is_soundness();
    tree_checks_are_trees();
    value_checks_are_values();
}

/// In a sound file the tree of each index is a walked one.
pub fn trees_are_walked()
    ensures { TreesAreWalked }
{
    audit_is_soundness();
    tree_checks_are_trees();
}

/// In a sound file the rows of each index rise strictly by their key.
pub fn rows_rise()
    ensures { RowsRise }
{
    audit_is_soundness();
    tree_checks_are_trees();
    keys_rise_over_leaves();
}

/// In a sound file the rows of each index without the delete mark rise strictly by their key.
pub fn live_rows_rise()
    ensures { LiveRowsRise }
{
    rows_rise();
    rows_by_leaves();
}

/// In a sound file each used page below the stated size has one owner.
pub fn used_pages_have_one_owner()
    ensures { UsedPagesHaveOneOwner }
{}
