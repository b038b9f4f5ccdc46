//! The way to the row with a key, and the checks of its values.

ghost use Rattle.std.specs.Prelude.{◌≡◌, ◌+◌, ◌*◌, ◌≤◌, ℕ, IfOk, OnOk, IfSome, length, false};
ghost use Rattle.page_source.specs.Lists.{unmarked};
ghost use Rattle.page_source.specs.Checks.{Halts};
ghost use Rattle.page_source.specs.Calls.{HaltsOver};
ghost use Rattle.column_values.specs.Types.{AreFields};
ghost use Rattle.space_audit.specs.Marks.{is_set};
ghost use Rattle.tree_walk.specs.Index.{root_level};
ghost use Rattle.tree_walk.specs.Records.{IsRecord};
ghost use Rattle.tree_walk.specs.Room.{HasSameRoom};
ghost use Rattle.key_lookup.specs.Record.{found_row, found_pages};
ghost use Rattle.key_lookup.specs.GetFirst.{LookUpChecks};
ghost use Rattle.key_lookup.specs.Tree.{OfIndex, IsReady};
ghost use Rattle.key_lookup.specs.LookUp.{IsFound, pages_found};

use crate::key::SearchKey;
use crate::leaf::find_row;
use crate::tree::Tree;
use crate::way::find_leaf;
use offpage_chain::ChainPages;
use page_source::{Halt, Page, PageSource, Steps};
use space_audit::Marks;
use std::sync::ledger::Ledger;
use table_check::{RowLeaf, check_row_values};
use tree_walk::Walk;

/// The row with a key: the number of its leaf, its origin there, and how many pages its values go on in.
#[derive(Clone, Copy, Debug, PartialEq, Eq)]
pub(crate) struct Found {
    pub number: u32,
    pub origin: usize,
    pub pages: u32,
}

/// Finds the row with the key that has no delete mark, by the checks of the way to it and of its values. The leaf of
/// the row is the page in hand then.
pub(crate) fn find_and_check<S: PageSource, L: Ledger>(
    walk: &mut Walk,
    source: &mut S,
    tree: &Tree,
    key: &SearchKey,
    marks: &mut Marks,
    page: &mut Page,
    steps: &mut Steps<L>,
) -> Result<Option<Found>, Halt>
    requires ready { IsReady S.PageSource source.old tree.now walk.old }
    requires fields { AreFields tree.now.leaf.now }
    requires same { length key.now ≡ tree.now.node.now.keys }
    requires members { length marks.old ≡ tree.now.header.now.size }
    requires fresh { (n : ℕ) → is_set marks.old n ≡ false }
    ensures exact { OfIndex S.PageSource source.old tree.now (λ index. Halts result (LookUpChecks index key.now)) }
    ensures found { IfOk result (λ found. OfIndex S.PageSource source.old tree.now (λ index.
        IsFound index key.now walk.new.child found)) }
    ensures readable { IfOk result (λ found. IfSome found (λ row.
        IsRecord walk.new.child tree.now.leaf.now row.origin)) }
    ensures steps_if_told { OfIndex S.PageSource source.old tree.now (λ index.
        steps.new ≤ steps.old + root_level index + 1 + length (found_pages index (found_row index key.now))) }
    ensures few { IfOk result (λ found. steps.new + pages_found found ≤ steps.old + 51 + 2 * length marks.old) }
    ensures cost { steps.new ≤ steps.old + 52 + length marks.old }
    ensures over { HaltsOver S.PageSource source.old source.new steps.old steps.new result }
{
    let number = find_leaf(walk, source, tree, key, steps)?;
    let Some(origin) = find_row(&mut walk.first, &walk.child, tree.leaf, key) else {
        return Ok(None);
    };
    walk.first.again(&walk.child, origin, tree.leaf);
    let leaf = RowLeaf {
        pages: ChainPages::Unaudited {
            header: tree.header,
        },
        fields: tree.leaf,
        number,
        page: &walk.child,
    };
    let pages = check_row_values(source, &leaf, &walk.first, marks, page, steps)?;
    Ok(Some(Found {
        number,
        origin,
        pages,
    }))
}
