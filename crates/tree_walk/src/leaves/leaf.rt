//! The leaf in hand, and the search for its next row. `open` fetches a leaf, `hop` goes to the next leaf, and `take`
//! also to the first. `search` finds the record after a given one, on this leaf or on a later one, and `seek` also the
//! first of a tree.

ghost use Rattle.std.specs.Prelude.{◌≡◌, ℕ, ◌+◌, ◌<◌, ◌≤◌, IfOk, IfSome, OnOk, OnErr, Ok, Err, None, true, false};
ghost use Rattle.page_source.specs.Pages.{page_of, page_count};
ghost use Rattle.page_source.specs.Faults.{HasCause, AsksOne};
ghost use Rattle.page_source.specs.Calls.{OfFile, HaltsOver};
ghost use Rattle.page_source.specs.declared.rule.Fault.{Fault};
ghost use Rattle.column_values.specs.Types.{Fields};
ghost use Rattle.fil_frame.specs.Frame.{next_page};
ghost use Rattle.compact_record.specs.Header.{HasHeaderBytes};
ghost use Rattle.index_page.specs.Header.{infimum};
ghost use Rattle.tree_walk.specs.Index.{index_of};
ghost use Rattle.tree_walk.specs.Leaf.{IsWalked, IsAlong, IsBefore, HasGiven, CanGive, CanSearch, FindsRow};
ghost use Rattle.tree_walk.specs.Leaf.{IsOnLeaf, HasTaken, CanTake, CanHop, FindsLeaf};
ghost use Rattle.tree_walk.specs.Leaf.{BreaksOff, LeadsAstray, HasMoved, HasHopped, IsSameOrNext};
ghost use Rattle.tree_walk.specs.Hops.{IsDue, Hops, GoesByNextFields};

use crate::cursor::FIL_NULL;
use compact_record::next_origin;
use fil_frame::layout::NEXT_PAGE;
use index_page::layout::{FIRST_ORIGIN, INFIMUM, SUPREMUM};
use page_source::{Failed, Halt, Page, PageSource, Rule, Steps, read_be};
use std::sync::ledger::Ledger;

/// A leaf, its number, and how many further leaves may be fetched.
#[derive(Debug, Drop)]
pub(crate) struct Leaf {
    pub page: Page,
    pub number: u32,
    pub may_fetch: u32,
}

/// Fetches a leaf.
fn open<S: PageSource, L: Ledger>(
    leaf: &mut Leaf,
    source: &mut S,
    n: u32,
    steps: &mut Steps<L>,
) -> Result<(), Failed>
    requires some { 0 < leaf.old.may_fetch }
    requires within { OfFile S.PageSource source.old (λ file. n < page_count file) }
    ensures same { S.content source.new ≡ S.content source.old }
    ensures page { OnOk result (OfFile S.PageSource source.old (λ file. leaf.new.page ≡ page_of file n)) }
    ensures number { OnOk result (leaf.new.number ≡ n) }
    ensures stays { OnErr result (leaf.new.number ≡ leaf.old.number) }
    ensures fetches { leaf.new.may_fetch + 1 ≡ leaf.old.may_fetch }
    ensures cause { HasCause (S.faults source.old) (S.faults source.new) result }
    ensures asked { AsksOne (S.fetches source.old) (S.fetches source.new) }
    ensures steps { steps.new ≡ steps.old + 1 }
{
    leaf.may_fetch -= 1;
    source.fetch(n, &mut leaf.page, steps)?;
    leaf.number = n;
    Ok(())
}

/// Goes to the next leaf by the next field of the one in hand, and answers whether there is one. The field has to fit
/// the number of leaves that are due.
fn hop<S: PageSource, L: Ledger>(
    leaf: &mut Leaf,
    source: &mut S,
    steps: &mut Steps<L>,
) -> Result<bool, Halt>
    requires reads { OfFile S.PageSource source.old (λ file. CanHop file leaf.old) }
    ensures exact { OfFile S.PageSource source.old (λ file. (root : ℕ) (fields node : Fields) (i : ℕ)
        → IsWalked (index_of file root fields node) → IsOnLeaf (index_of file root fields node) leaf.old i
        → FindsLeaf (index_of file root fields node) (i + 1) result leaf.new) }
    ensures hops { Hops (next_page leaf.old.page) leaf.old leaf.new result }
    ensures broken { (fault : Fault) → result ≡ Err (Halt.Broken fault) → LeadsAstray leaf.new fault }
    ensures all { result ≡ Ok false → leaf.new.may_fetch ≡ 0 }
    ensures fewer { result ≡ Ok true → leaf.new.may_fetch + 1 ≡ leaf.old.may_fetch }
    ensures keeps { HaltsOver S.PageSource source.old source.new steps.old steps.new result }
    ensures steps { steps.new + leaf.new.may_fetch ≡ steps.old + leaf.old.may_fetch }
{
    let number = read_be::<4>(&leaf.page, NEXT_PAGE) as u32;
    if number == FIL_NULL {
        if leaf.may_fetch > 0 {
            return Err(Halt::Broken(Rule::Sibling.at(leaf.number)));
        }
        return Ok(false);
    }
    if leaf.may_fetch == 0 {
        return Err(Halt::Broken(Rule::Sibling.at(leaf.number)));
    }
    open(leaf, source, number, steps)?;
    Ok(true)
}

/// Goes to the next leaf, to the leftmost one if no leaf came yet, and answers whether there is one.
pub(crate) fn take<S: PageSource, L: Ledger>(
    leaf: &mut Leaf,
    source: &mut S,
    last: usize,
    steps: &mut Steps<L>,
) -> Result<bool, Halt>
    requires reads { OfFile S.PageSource source.old (λ file. CanTake file leaf.old last) }
    ensures exact { OfFile S.PageSource source.old (λ file. (root : ℕ) (fields node : Fields) (i : ℕ)
        → IsWalked (index_of file root fields node) → HasTaken (index_of file root fields node) leaf.old last i
        → FindsLeaf (index_of file root fields node) i result leaf.new) }
    ensures hops { (n : ℕ) → IsDue leaf.old last n → Hops n leaf.old leaf.new result }
    ensures broken { (fault : Fault) → result ≡ Err (Halt.Broken fault) → LeadsAstray leaf.new fault }
    ensures all { result ≡ Ok false → leaf.new.may_fetch ≡ 0 }
    ensures fewer { result ≡ Ok true → leaf.new.may_fetch + 1 ≡ leaf.old.may_fetch }
    ensures keeps { HaltsOver S.PageSource source.old source.new steps.old steps.new result }
    ensures steps { steps.new + leaf.new.may_fetch ≡ steps.old + leaf.old.may_fetch }
{
    if last >= INFIMUM {
        return hop(leaf, source, steps);
    }
    if leaf.may_fetch == 0 {
        return Ok(false);
    }
    let n = leaf.number;
    open(leaf, source, n, steps)?;
    Ok(true)
}

/// The record after this one, on this leaf or on a later one, none after the last.
#[tactic(auto, using(crate::proofs::Alongs::along_more, crate::proofs::Alongs::along_broken))]
fn search<S: PageSource, L: Ledger>(
    leaf: &mut Leaf,
    source: &mut S,
    from: usize,
    steps: &mut Steps<L>,
) -> Result<Option<usize>, Halt>
    requires header { HasHeaderBytes from }
    requires along { IsAlong leaf.old.page from }
    requires reads { OfFile S.PageSource source.old (λ file. CanSearch file leaf.old from) }
    ensures exact { OfFile S.PageSource source.old (λ file. (root : ℕ) (fields node : Fields) (j : ℕ)
        → IsWalked (index_of file root fields node) → IsBefore (index_of file root fields node) leaf.old from j
        → FindsRow (index_of file root fields node) j result leaf.new) }
    ensures along { IfOk result (λ found. IfSome found (λ origin. IsAlong leaf.new.page origin)) }
    ensures origin { IfOk result (λ found. IfSome found (λ origin. (125 ≤ origin) × (origin < 16384))) }
    ensures broken { (fault : Fault) → result ≡ Err (Halt.Broken fault) → BreaksOff leaf.new fault }
    ensures all { result ≡ Ok None → leaf.new.may_fetch ≡ 0 }
    ensures moves { IfOk result (λ found. HasMoved leaf.old leaf.new) }
    ensures near { OfFile S.PageSource source.old (λ file. (root : ℕ) (fields node : Fields) (j : ℕ)
        → IsWalked (index_of file root fields node) → IsBefore (index_of file root fields node) leaf.old from j
        → HasHopped leaf.old leaf.new from) }
    ensures hops { GoesByNextFields (next_page leaf.old.page) leaf.old leaf.new result }
    ensures keeps { HaltsOver S.PageSource source.old source.new steps.old steps.new result }
    ensures steps { steps.new + leaf.new.may_fetch ≡ steps.old + leaf.old.may_fetch }
{
    let mut at = from;
    'leaves: loop {
        let next = next_origin(&leaf.page, at);
        if next >= FIRST_ORIGIN {
            return Ok(Some(next));
        }
        if next != SUPREMUM {
            return Err(Halt::Broken(Rule::RecordChain.at(leaf.number)));
        }
        let found = hop(leaf, source, steps)?;
        if !found {
            return Ok(None);
        }
        at = INFIMUM;
    }
}

/// The row after the one last given, the first row if none was given.
pub(crate) fn seek<S: PageSource, L: Ledger>(
    leaf: &mut Leaf,
    source: &mut S,
    last: usize,
    steps: &mut Steps<L>,
) -> Result<Option<usize>, Halt>
    requires most { last < 16384 }
    requires along { infimum ≤ last → IsAlong leaf.old.page last }
    requires reads { OfFile S.PageSource source.old (λ file. CanGive file leaf.old last) }
    ensures exact { OfFile S.PageSource source.old (λ file. (root : ℕ) (fields node : Fields) (j : ℕ)
        → IsWalked (index_of file root fields node) → HasGiven (index_of file root fields node) leaf.old last j
        → FindsRow (index_of file root fields node) j result leaf.new) }
    ensures along { IfOk result (λ found. IfSome found (λ origin. IsAlong leaf.new.page origin)) }
    ensures origin { IfOk result (λ found. IfSome found (λ origin. (125 ≤ origin) × (origin < 16384))) }
    ensures broken { (fault : Fault) → result ≡ Err (Halt.Broken fault) → BreaksOff leaf.new fault }
    ensures all { result ≡ Ok None → leaf.new.may_fetch ≡ 0 }
    ensures moves { IfOk result (λ found. infimum ≤ last → HasMoved leaf.old leaf.new) }
    ensures near { OfFile S.PageSource source.old (λ file. (root : ℕ) (fields node : Fields) (j : ℕ)
        → IsWalked (index_of file root fields node) → HasGiven (index_of file root fields node) leaf.old last j
        → IsSameOrNext leaf.old leaf.new) }
    ensures hops { (n : ℕ) → IsDue leaf.old last n → GoesByNextFields n leaf.old leaf.new result }
    ensures keeps { HaltsOver S.PageSource source.old source.new steps.old steps.new result }
    ensures steps { steps.new + leaf.new.may_fetch ≡ steps.old + leaf.old.may_fetch }
{
    if last >= INFIMUM {
        return search(leaf, source, last, steps);
    }
    if leaf.may_fetch == 0 {
        return Ok(None);
    }
    let n = leaf.number;
    open(leaf, source, n, steps)?;
    search(leaf, source, INFIMUM, steps)
}
