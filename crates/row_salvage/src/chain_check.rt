//! The pages of a value that goes on elsewhere, each looked at once in all.

ghost use Rattle.std.specs.Prelude.{◌≡◌, ◌≢◌, ◌+◌, ◌-◌, ◌≤◌, ◌<◌, ◌++◌, ◌∷◌, [], ℕ, Bool, List, length, Option, Some};
ghost use Rattle.std.specs.Prelude.{None};
ghost use Rattle.std.specs.Prelude.{IfOk, OnOk};
ghost use Rattle.page_source.specs.Pages.{page_of};
ghost use Rattle.page_source.specs.Lists.{unmarked};
ghost use Rattle.page_source.specs.Calls.{OfFile};
ghost use Rattle.column_values.specs.Utf8Reader.{CountsUpTo, WasFed, TakesText};
ghost use Rattle.space_audit.specs.Marks.{is_set, Marked};
ghost use Rattle.offpage_chain.specs.Chain.{chain_pages, part_length};
ghost use Rattle.offpage_chain.specs.ChainChecks.{IsChainPart};
ghost use Rattle.salvage_model.specs.ColumnChecks.{PartChecks, PartsChecksBy};
ghost use Rattle.salvage_model.specs.Judged.{lost_by};
ghost use Rattle.row_salvage.specs.Missed.{IsNewly, UnderMissed};
ghost use Rattle.row_salvage.specs.Calls.{CanLook, LooksOver, AnswersParts, loss_of, looked_now};

use column_values::Utf8;
use fil_frame::kinds::FIL_PAGE_TYPE_BLOB;
use fil_frame::{frame_fault, kind};
use offpage_chain::Reference;
use offpage_chain::layout::PART_HEADER;
use offpage_chain::part::{is_part, next_part, part_bytes, part_length};
use page_source::{Page, PageSource, Rule, Steps};
use salvage_model::Loss;
use space_audit::Marks;
use std::sync::ledger::Ledger;

/// The chain that is checked: how many pages are looked at in the file, the space id that the leaf names, the leaf, and
/// the reference.
#[derive(Clone, Copy)]
pub(crate) struct Chain {
    pub pages: u32,
    pub space: u32,
    pub leaf: u32,
    pub reference: Reference,
}

/// The page that is due: the one that leads to it, and how many bytes are left from it on.
#[derive(Clone, Copy)]
struct Due {
    page: u32,
    holder: u32,
    left: u32,
}

/// Checks the page that is due, which it marks as it fetches it, and gives the number of its bytes.
fn check_part<S: PageSource, L: Ledger>(
    source: &mut S,
    chain: Chain,
    due: Due,
    marks: &mut Marks,
    page: &mut Page,
    steps: &mut Steps<L>,
) -> Result<u32, Loss>
    requires ready { CanLook S.PageSource source.old chain.pages marks.old }
    ensures answers { OfFile S.PageSource source.old (λ file.
        UnderMissed marks.old marks.new (S.faults source.old) (S.faults source.new) (λ missed. (before : List ℕ)
        → PartChecks file missed chain.space due.holder (is_set marks.old due.page) due.left before due.page
        (lost_by (loss_of result) (before ++ looked_now marks.old marks.new due.page)))) }
    ensures marked { (taken : ℕ → Bool) (list : List ℕ) → Marked taken marks.old list
        → Marked taken marks.new (list ++ looked_now marks.old marks.new due.page) }
    ensures newly { OnOk result (IsNewly marks.old marks.new due.page) }
    ensures page { OnOk result (OfFile S.PageSource source.old (λ file. page.new ≡ page_of file due.page)) }
    ensures part { IfOk result (λ length. (length ≡ part_length page.new) × IsChainPart page.new due.left) }
    ensures fewer { OnOk result (unmarked marks.new + 1 ≡ unmarked marks.old) }
    ensures over { LooksOver S.PageSource source.old source.new marks.old marks.new steps.old steps.new }
{
    if due.page >= chain.pages || marks.has(due.page) {
        return Err(Loss::Broken(Rule::ChainPlace.at(due.holder)));
    }
    marks.mark(due.page);
    if source.fetch(due.page, page, steps).is_err() {
        return Err(Loss::Unread(due.page));
    }
    if frame_fault(page, due.page, chain.space) {
        return Err(Loss::Broken(Rule::Frame.at(due.page)));
    }
    if kind(page) != FIL_PAGE_TYPE_BLOB {
        return Err(Loss::Broken(Rule::ChainPlace.at(due.holder)));
    }
    if !is_part(page, due.left) {
        return Err(Loss::Broken(Rule::ChainLength.at(due.page)));
    }
    Ok(part_length(page))
}

/// Checks the chain of a value, whose front before the reference `text` was fed, and answers how many pages it has.
/// Marks the pages that it looks at.
pub(crate) fn check_parts<S: PageSource, L: Ledger>(
    source: &mut S,
    chain: Chain,
    text: &mut Utf8,
    marks: &mut Marks,
    page: &mut Page,
    steps: &mut Steps<L>,
) -> Result<u32, Loss>
    requires ready { CanLook S.PageSource source.old chain.pages marks.old }
    requires count { CountsUpTo 16384 text.old }
    ensures answers { OfFile S.PageSource source.old (λ file. (fed : List ℕ) → WasFed text.old fed
        → UnderMissed marks.old marks.new (S.faults source.old) (S.faults source.new) (λ missed.
        AnswersParts (PartsChecksBy file missed chain.space chain.leaf chain.reference (is_set marks.old)
        (λ bytes. TakesText text.old (fed ++ bytes))) (chain_pages file chain.reference)
        marks.old marks.new (loss_of result))) }
    ensures count { IfOk result (λ count. OfFile S.PageSource source.old (λ file.
        count ≡ length (chain_pages file chain.reference))) }
    ensures fewer { IfOk result (λ count. count + unmarked marks.new ≤ unmarked marks.old) }
    ensures over { LooksOver S.PageSource source.old source.new marks.old marks.new steps.old steps.new }
{
    let reference = chain.reference;
    if reference.length == 0 {
        return Err(Loss::Broken(Rule::ChainLength.at(chain.leaf)));
    }
    if reference.space != chain.space || reference.offset != PART_HEADER {
        return Err(Loss::Broken(Rule::ChainPlace.at(chain.leaf)));
    }
    let mut due = Due {
        page: reference.page,
        holder: chain.leaf,
        left: reference.length,
    };
    let mut count = 0;
    while due.left > 0 {
        let length = check_part(source, chain, due, marks, page, steps)?;
        text.feed(part_bytes(page));
        count += 1;
        due = Due {
            page: next_part(page),
            holder: due.page,
            left: due.left - length,
        };
    }
    if !text.is_text() {
        return Err(Loss::Broken(Rule::TextSpelling.at(chain.leaf)));
    }
    Ok(count)
}
