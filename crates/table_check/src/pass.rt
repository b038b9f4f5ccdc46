//! All leaves of a tree, taken without a look at their records.

ghost use Rattle.std.specs.Prelude.{◌≡◌, ℕ, ◌+◌, OnOk, false};
ghost use Rattle.page_source.specs.Calls.{OfFile, HaltsOver};
ghost use Rattle.column_values.specs.Types.{Fields};
ghost use Rattle.tree_walk.specs.Index.{index_of};
ghost use Rattle.tree_walk.specs.Leaf.{IsWalked, HasTaken, CanTake};
ghost use Rattle.tree_walk.specs.Hops.{IsDue, GoesByNextFields};
ghost use Rattle.table_check.specs.Pass.{PassesLeaves};

use page_source::{Halt, PageSource, Steps};
use std::sync::ledger::Ledger;
use tree_walk::LeafCursor;

/// Takes the leaves of a tree in their order, as a look at their values does. So a check asks a file for the same
/// pages, whatever the types of its columns. `Source` comes if the file's count of faults rose. `Broken` never comes
/// over a source that tells its content; over another it names a leaf whose next field doesn't fit the number of leaves
/// (rule 31).
pub(crate) fn pass_leaves<S: PageSource, L: Ledger>(
    source: &mut S,
    cursor: &mut LeafCursor,
    steps: &mut Steps<L>,
) -> Result<(), Halt>
    requires goes_on { cursor.old.ended ≡ false }
    requires reads { OfFile S.PageSource source.old (λ file. CanTake file cursor.old.leaf cursor.old.last) }
    ensures exact { OfFile S.PageSource source.old (λ file. (root : ℕ) (fields node : Fields) (i : ℕ)
        → IsWalked (index_of file root fields node)
        → HasTaken (index_of file root fields node) cursor.old.leaf cursor.old.last i
        → PassesLeaves (index_of file root fields node) result cursor.new.leaf) }
    ensures hops { (n : ℕ) → IsDue cursor.old.leaf cursor.old.last n
        → GoesByNextFields n cursor.old.leaf cursor.new.leaf result }
    ensures all { OnOk result (cursor.new.leaf.may_fetch ≡ 0) }
    ensures keeps { HaltsOver S.PageSource source.old source.new steps.old steps.new result }
    ensures steps { steps.new + cursor.new.leaf.may_fetch ≡ steps.old + cursor.old.leaf.may_fetch }
{
    while cursor.next_leaf(source, steps)? {}
    Ok(())
}
