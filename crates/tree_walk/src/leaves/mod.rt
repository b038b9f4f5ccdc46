//! The rows of a tree that was walked, leaf by leaf by next fields.

ghost use Rattle.std.specs.Prelude.{◌≡◌, ℕ, ◌+◌, ◌<◌, ◌≤◌, IfOk, IfSome, Ok, Err, None, true, false};
ghost use Rattle.page_source.specs.Calls.{OfFile, HaltsOver};
ghost use Rattle.page_source.specs.declared.rule.Fault.{Fault};
ghost use Rattle.column_values.specs.Types.{Fields};
ghost use Rattle.index_page.specs.Header.{infimum};
ghost use Rattle.tree_walk.specs.Index.{Index, index_of};
ghost use Rattle.tree_walk.specs.Walk.{IsEndsOf};
ghost use Rattle.tree_walk.specs.Leaf.{CursorView, IsAlong, IsWalked, HasGiven, CanGive, FindsRow, BreaksOff};
ghost use Rattle.tree_walk.specs.Leaf.{HasMoved, IsSameOrNext, Ends};
ghost use Rattle.tree_walk.specs.Leaf.{HasTaken, CanTake, FindsLeaf, EndsLeaves, LeadsAstray};
ghost use Rattle.tree_walk.specs.Hops.{IsDue, Hops, GoesByNextFields};

mod leaf;

use crate::ends::TreeEnds;
use index_page::layout::INFIMUM;
use leaf::{Leaf, seek, take};
use page_source::{Halt, NoMemory, Page, PageSource, Steps};
use std::alloc::Global;
use std::marker::Model;
use std::sync::ledger::Ledger;

/// A cursor over the rows of a tree: its leaf, the origin last given, and whether it has ended.
#[derive(Debug, Drop)]
pub struct LeafCursor {
    leaf: Leaf,
    /// The origin that was last given: 0 before the first leaf, that of the infimum at the head of a leaf.
    last: usize,
    ended: bool,
}

impl Model for LeafCursor {
    ghost Value = { CursorView };

    ghost view = { λ c. record { leaf = c.leaf; last = c.last; ended = c.ended } };

    ghost invariant = { λ c. (c.last < 16384) × (c.ended ≡ false → infimum ≤ c.last → IsAlong c.leaf.page c.last) };
}

impl LeafCursor {
    /// A cursor before the first row of a tree.
    pub fn start(alloc: Global, ends: &TreeEnds) -> Result<LeafCursor, NoMemory>
        ensures number { IfOk result (λ cursor. cursor.leaf.number ≡ ends.now.first_leaf) }
        ensures fetches { IfOk result (λ cursor. cursor.leaf.may_fetch ≡ ends.now.leaves) }
        ensures last { IfOk result (λ cursor. cursor.last ≡ 0) }
        ensures ended { IfOk result (λ cursor. cursor.ended ≡ false) }
        ensures told { IfOk result (λ cursor. (index : Index) → IsEndsOf index ends.now
            → HasGiven index cursor.leaf cursor.last 0) }
        ensures taken { IfOk result (λ cursor. (index : Index) → IsEndsOf index ends.now
            → HasTaken index cursor.leaf cursor.last 0) }
    {
        let leaf = Leaf {
            page: Page::zeroed(alloc)?,
            number: ends.first_leaf,
            may_fetch: ends.leaves,
        };
        Ok(LeafCursor {
            leaf,
            last: 0,
            ended: false,
        })
    }

    /// The origin of the next row on the page in hand, delete-marked or not; none after the last, once all leaves
    /// came. `Source` comes if the file's count of faults rose. `Broken` never comes over a source that tells its
    /// content; over another it names the leaf in hand, whose record chain isn't whole (rule 35), or whose next field
    /// doesn't fit the number of leaves (rule 31). After none or an error it has ended.
    pub fn next<S: PageSource, L: Ledger>(
        &mut self,
        source: &mut S,
        steps: &mut Steps<L>,
    ) -> Result<Option<usize>, Halt>
        requires goes_on { self.old.ended ≡ false }
        requires reads { OfFile S.PageSource source.old (λ file. CanGive file self.old.leaf self.old.last) }
        ensures exact { OfFile S.PageSource source.old (λ file. (root : ℕ) (fields node : Fields) (j : ℕ)
            → IsWalked (index_of file root fields node)
            → HasGiven (index_of file root fields node) self.old.leaf self.old.last j
            → FindsRow (index_of file root fields node) j result self.new.leaf) }
        ensures last { IfOk result (λ found. IfSome found (λ origin. self.new.last ≡ origin)) }
        ensures ended { Ends result self.new.ended }
        ensures all { result ≡ Ok None → self.new.leaf.may_fetch ≡ 0 }
        ensures origin { IfOk result (λ found. IfSome found (λ origin. (125 ≤ origin) × (origin < 16384))) }
        ensures broken { (fault : Fault) → result ≡ Err (Halt.Broken fault) → BreaksOff self.new.leaf fault }
        ensures moves { IfOk result (λ found. infimum ≤ self.old.last → HasMoved self.old.leaf self.new.leaf) }
        ensures near { OfFile S.PageSource source.old (λ file. (root : ℕ) (fields node : Fields) (j : ℕ)
            → IsWalked (index_of file root fields node)
            → HasGiven (index_of file root fields node) self.old.leaf self.old.last j
            → IsSameOrNext self.old.leaf self.new.leaf) }
        ensures hops { (n : ℕ) → IsDue self.old.leaf self.old.last n
            → GoesByNextFields n self.old.leaf self.new.leaf result }
        ensures keeps { HaltsOver S.PageSource source.old source.new steps.old steps.new result }
        ensures steps { steps.new + self.new.leaf.may_fetch ≡ steps.old + self.old.leaf.may_fetch }
    {
        self.ended = true;
        let found = seek(&mut self.leaf, source, self.last, steps)?;
        if let Some(origin) = found {
            self.last = origin;
            self.ended = false;
        }
        Ok(found)
    }

    /// Goes to the next leaf without a look at the records of the one in hand, and answers whether there is one. The
    /// first call goes to the leftmost leaf. After it `next` gives the first row of the leaf. `Source` and `Broken`
    /// come as at `next`, `Broken` for the next field alone.
    pub fn next_leaf<S: PageSource, L: Ledger>(
        &mut self,
        source: &mut S,
        steps: &mut Steps<L>,
    ) -> Result<bool, Halt>
        requires goes_on { self.old.ended ≡ false }
        requires reads { OfFile S.PageSource source.old (λ file. CanTake file self.old.leaf self.old.last) }
        ensures exact { OfFile S.PageSource source.old (λ file. (root : ℕ) (fields node : Fields) (i : ℕ)
            → IsWalked (index_of file root fields node)
            → HasTaken (index_of file root fields node) self.old.leaf self.old.last i
            → FindsLeaf (index_of file root fields node) i result self.new.leaf) }
        ensures last { result ≡ Ok true → self.new.last ≡ infimum }
        ensures ended { EndsLeaves result self.new.ended }
        ensures all { result ≡ Ok false → self.new.leaf.may_fetch ≡ 0 }
        ensures fewer { result ≡ Ok true → self.new.leaf.may_fetch + 1 ≡ self.old.leaf.may_fetch }
        ensures broken { (fault : Fault) → result ≡ Err (Halt.Broken fault) → LeadsAstray self.new.leaf fault }
        ensures hops { (n : ℕ) → IsDue self.old.leaf self.old.last n → Hops n self.old.leaf self.new.leaf result }
        ensures keeps { HaltsOver S.PageSource source.old source.new steps.old steps.new result }
        ensures steps { steps.new + self.new.leaf.may_fetch ≡ steps.old + self.old.leaf.may_fetch }
    {
        self.ended = true;
        let found = take(&mut self.leaf, source, self.last, steps)?;
        if found {
            self.last = INFIMUM;
            self.ended = false;
        }
        Ok(found)
    }

    /// The leaf in hand, from the first row on.
    pub fn page(&self) -> &Page
        ensures { result.now ≡ self.now.leaf.page }
    {
        &self.leaf.page
    }

    /// The number of the leaf in hand; before the first row that of the leftmost leaf.
    pub fn number(&self) -> u32
        ensures { result ≡ self.now.leaf.number }
    {
        self.leaf.number
    }
}
