//! The rows of a table without the delete mark, leaf by leaf.

ghost use Rattle.std.specs.Prelude.{◌≡◌, ℕ, ◌+◌, ◌<◌, ◌≤◌, IfOk, IfSome, Ok, Err, None, false, true};
ghost use Rattle.page_source.specs.Calls.{OfFile, HaltsOver};
ghost use Rattle.page_source.specs.declared.rule.Fault.{Fault};
ghost use Rattle.column_values.specs.Types.{Fields};
ghost use Rattle.tree_walk.specs.Index.{Index, index_of};
ghost use Rattle.tree_walk.specs.Walk.{IsEndsOf};
ghost use Rattle.tree_walk.specs.Leaf.{IsWalked, Ends};
ghost use Rattle.table_check.specs.Live.{HasGivenLive, CanGiveLive, FindsLive, HaveAllCome, CutsOff};

use compact_record::deleted;
use page_source::{Halt, NoMemory, Page, PageSource, Rule, Steps};
use std::alloc::Global;
use std::marker::Model;
use std::sync::ledger::Ledger;
use tree_walk::{LeafCursor, TreeEnds};

/// A cursor over the rows of a checked table that have no delete mark. It gives as many as the check counted, over a
/// file that changes too, or breaks off.
#[derive(Debug, Drop)]
pub struct LiveRows {
    cursor: LeafCursor,
    live: u64,
    deleted: u64,
}

impl Model for LiveRows {
    ghost use Rattle.table_check.specs.Live.{LiveView};

    ghost Value = { LiveView };

    ghost view = { λ rows. record {
      leaf = rows.cursor.leaf;
      last = rows.cursor.last;
      ended = rows.cursor.ended;
      live = rows.live;
      deleted = rows.deleted;
    } };
}

impl LiveRows {
    /// A cursor before the first row of a tree.
    pub fn start(alloc: Global, ends: &TreeEnds) -> Result<LiveRows, NoMemory>
        ensures fetches { IfOk result (λ rows. rows.leaf.may_fetch ≡ ends.now.leaves) }
        ensures goes_on { IfOk result (λ rows. rows.ended ≡ false) }
        ensures live { IfOk result (λ rows. rows.live ≡ ends.now.live) }
        ensures deleted { IfOk result (λ rows. rows.deleted ≡ ends.now.deleted) }
        ensures told { IfOk result (λ rows. (index : Index) → IsEndsOf index ends.now → HasGivenLive index rows 0) }
    {
        Ok(LiveRows {
            cursor: LeafCursor::start(alloc, ends)?,
            live: ends.live,
            deleted: ends.deleted,
        })
    }

    /// The origin of the next row on the page in hand; none behind the last, once as many leaves, rows and marked rows
    /// came as were counted. `Source` comes where the file's count of faults rose. `Broken` never comes over a source
    /// that tells its content; over another it names the leaf in hand, whose record chain isn't whole, too long, or
    /// the last one and too short (rule 35), or whose next field doesn't fit the number of leaves (rule 31). After none
    /// it has ended, and after an error it isn't used again.
    pub fn next<S: PageSource, L: Ledger>(
        &mut self,
        source: &mut S,
        steps: &mut Steps<L>,
    ) -> Result<Option<usize>, Halt>
        requires goes_on { self.old.ended ≡ false }
        requires reads { OfFile S.PageSource source.old (λ file. CanGiveLive file self.old) }
        ensures exact { OfFile S.PageSource source.old (λ file. (root : ℕ) (fields node : Fields) (j : ℕ)
            → IsWalked (index_of file root fields node) → HasGivenLive (index_of file root fields node) self.old j
            → FindsLive (index_of file root fields node) j result self.new) }
        ensures goes_on { IfOk result (λ found. IfSome found (λ _. self.new.ended ≡ false)) }
        ensures ended { result ≡ Ok None → self.new.ended ≡ true }
        ensures all { result ≡ Ok None → HaveAllCome self.old self.new }
        ensures origin { IfOk result (λ found. IfSome found (λ origin. (125 ≤ origin) × (origin < 16384))) }
        ensures fewer { IfOk result (λ found. IfSome found (λ _. self.new.live + 1 ≡ self.old.live)) }
        ensures broken { (fault : Fault) → result ≡ Err (Halt.Broken fault) → CutsOff self.new fault }
        ensures over { HaltsOver S.PageSource source.old source.new steps.old steps.new result }
        ensures steps { steps.new + self.new.leaf.may_fetch ≡ steps.old + self.old.leaf.may_fetch }
    {
        while let Some(origin) = self.cursor.next(source, steps)? {
            let is_deleted = deleted(self.cursor.page(), origin);
            let left = if is_deleted { self.deleted } else { self.live };
            if left == 0 {
                return Err(Halt::Broken(Rule::RecordChain.at(self.cursor.number())));
            }
            if !is_deleted {
                self.live = left - 1;
                return Ok(Some(origin));
            }
            self.deleted = left - 1;
        }
        if self.live > 0 || self.deleted > 0 {
            return Err(Halt::Broken(Rule::RecordChain.at(self.cursor.number())));
        }
        Ok(None)
    }

    /// The leaf in hand, from the first row on.
    pub fn page(&self) -> &Page
        ensures { result.now ≡ self.now.leaf.page }
    {
        self.cursor.page()
    }

    /// The number of the leaf in hand; before the first row that of the leftmost leaf.
    pub fn number(&self) -> u32
        ensures { result ≡ self.now.leaf.number }
    {
        self.cursor.number()
    }
}
