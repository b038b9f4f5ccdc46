//! The checks of a chain.

ghost use Rattle.std.specs.Prelude.{◌≡◌, ◌+◌, ◌-◌, ◌*◌, ◌≤◌, ◌<◌, ◌++◌, ℕ, List, false, length, IfOk, OnOk};
ghost use Rattle.page_source.specs.Pages.{page_of};
ghost use Rattle.page_source.specs.Lists.{unmarked};
ghost use Rattle.page_source.specs.Checks.{Halts};
ghost use Rattle.page_source.specs.Calls.{OfFile, HaltsOver};
ghost use Rattle.column_values.specs.Utf8Reader.{CountsUpTo, WasFed, TakesText, IsFed};
ghost use Rattle.space_audit.specs.Space.{IsAuditOf};
ghost use Rattle.space_audit.specs.Marks.{is_set, Marked, StaysMarked};
ghost use Rattle.offpage_chain.specs.Chain.{chain_pages, part_length, bytes_on};
ghost use Rattle.offpage_chain.specs.ChainChecks.{ChainChecks, ChainChecksBy, IsChainPart};
ghost use Rattle.offpage_chain.specs.Places.{CanCheck, PlaceIn};
ghost use Rattle.offpage_chain.specs.CheckSteps.{pages_in, first_due, DueCheck, PagesCheck};

use crate::pages::{ChainPages, Due};
use crate::part::{is_part, next_part, part_bytes, part_length};
use crate::reference::Reference;
use column_values::Utf8;
use page_source::{Halt, Page, PageSource, Rule, Steps};
use space_audit::{Marks, Space};
use std::sync::ledger::Ledger;

/// The chain that is checked: the pages that it may go on at, the leaf with the record, and the reference.
#[derive(Clone, Copy)]
struct Chain<'a> {
    pages: ChainPages<'a>,
    holder: u32,
    reference: &'a Reference,
}

impl Chain<'_> {
    /// The page that the reference leads to.
    fn first(&self) -> Due
        ensures { result ≡ first_due self.now }
    {
        Due {
            page: self.reference.page,
            holder: self.holder,
            left: self.reference.length,
        }
    }
}

/// Checks the page that is due, and gives the number of its bytes.
fn check_page<S: PageSource, L: Ledger>(
    source: &mut S,
    chain: &Chain,
    due: Due,
    marks: &Marks,
    page: &mut Page,
    steps: &mut Steps<L>,
) -> Result<u32, Halt>
    requires ready { CanCheck S.PageSource source.old chain.now.pages marks.now }
    ensures exact { OfFile S.PageSource source.old (λ file.
        Halts result (DueCheck file chain.now (is_set marks.now) due)) }
    ensures page { OnOk result (OfFile S.PageSource source.old (λ file. page.new ≡ page_of file due.page)) }
    ensures part { IfOk result (λ length. (length ≡ part_length page.new) × IsChainPart page.new due.left) }
    ensures within { OnOk result (due.page < length marks.now) }
    ensures new { OnOk result (is_set marks.now due.page ≡ false) }
    ensures cost { steps.new ≤ steps.old + 1 }
    ensures step { OnOk result (steps.new ≡ steps.old + 1) }
    ensures over { HaltsOver S.PageSource source.old source.new steps.old steps.new result }
{
    chain.pages.fetch(source, due, marks, page, steps)?;
    if !is_part(page, due.left) {
        return Err(Halt::Broken(Rule::ChainLength.at(due.page)));
    }
    Ok(part_length(page))
}

/// Checks the pages of a chain in order: they are marked, and their bytes fed to the text. Answers how
/// many there are.
fn check_pages<S: PageSource, L: Ledger>(
    source: &mut S,
    chain: &Chain,
    text: &mut Utf8,
    marks: &mut Marks,
    page: &mut Page,
    steps: &mut Steps<L>,
) -> Result<u32, Halt>
    requires ready { CanCheck S.PageSource source.old chain.now.pages marks.old }
    requires count { CountsUpTo 16384 text.old }
    ensures exact { OfFile S.PageSource source.old (λ file.
        Halts result (PagesCheck file chain.now (is_set marks.old))) }
    ensures count { IfOk result (λ count. OfFile S.PageSource source.old (λ file.
        count ≡ length (pages_in file chain.now))) }
    ensures grew { OnOk result (OfFile S.PageSource source.old (λ file.
        Marked (is_set marks.old) marks.new (pages_in file chain.now))) }
    ensures fed { OnOk result (OfFile S.PageSource source.old (λ file.
        IsFed text.old text.new (bytes_on file (pages_in file chain.now)))) }
    ensures members { length marks.new ≡ length marks.old }
    ensures marked { StaysMarked marks.old marks.new }
    ensures cost { steps.new + unmarked marks.new ≤ steps.old + unmarked marks.old + 1 }
    ensures fewer { IfOk result (λ count. count + unmarked marks.new ≤ unmarked marks.old) }
    ensures steps_if_told { OfFile S.PageSource source.old (λ file.
        steps.new ≤ steps.old + length (pages_in file chain.now)) }
    ensures exactly { IfOk result (λ count. steps.new ≡ steps.old + count) }
    ensures over { HaltsOver S.PageSource source.old source.new steps.old steps.new result }
{
    let mut due = chain.first();
    let mut count = 0;
    while due.left > 0 {
        let length = check_page(source, chain, due, marks, page, steps)?;
        marks.mark(due.page);
        text.feed(part_bytes(page));
        count += 1;
        due = Due {
            page: next_part(page),
            holder: due.page,
            left: due.left - length,
        };
    }
    Ok(count)
}

/// Checks the chain of an externally stored field (btr0cur), marks its pages, and answers how many there are. `holder`
/// is the leaf with the record. `text` was fed the local bytes before the reference, and is fed those of the chain.
/// `Broken` names the first broken one of the rules 48, 49 and 51, in a space that wasn't audited also 25, and the leaf
/// or the page of the chain that breaks it; `Source` comes where the file's count of faults rose.
pub fn check_chain_in<S: PageSource, L: Ledger>(
    source: &mut S,
    pages: &ChainPages,
    holder: u32,
    reference: &Reference,
    text: &mut Utf8,
    marks: &mut Marks,
    page: &mut Page,
    steps: &mut Steps<L>,
) -> Result<u32, Halt>
    requires ready { CanCheck S.PageSource source.old pages.now marks.old }
    requires count { CountsUpTo 16384 text.old }
    ensures exact { OfFile S.PageSource source.old (λ file. (fed : List ℕ) → WasFed text.old fed
        → Halts result (ChainChecksBy file (PlaceIn file pages.now) holder reference.now (is_set marks.old)
        (λ bytes. TakesText text.old (fed ++ bytes)))) }
    ensures count { IfOk result (λ count. OfFile S.PageSource source.old (λ file.
        count ≡ length (chain_pages file reference.now))) }
    ensures grew { OnOk result (OfFile S.PageSource source.old (λ file.
        Marked (is_set marks.old) marks.new (chain_pages file reference.now))) }
    ensures members { length marks.new ≡ length marks.old }
    ensures marked { StaysMarked marks.old marks.new }
    ensures cost { steps.new + unmarked marks.new ≤ steps.old + unmarked marks.old + 1 }
    ensures fewer { IfOk result (λ count. count + unmarked marks.new ≤ unmarked marks.old) }
    ensures steps_if_told { OfFile S.PageSource source.old (λ file.
        steps.new ≤ steps.old + length (chain_pages file reference.now)) }
    ensures exactly { IfOk result (λ count. steps.new ≡ steps.old + count) }
    ensures over { HaltsOver S.PageSource source.old source.new steps.old steps.new result }
{
    if reference.length == 0 {
        return Err(Halt::Broken(Rule::ChainLength.at(holder)));
    }
    if !pages.refers_here(reference) {
        return Err(Halt::Broken(Rule::ChainPlace.at(holder)));
    }
    let chain = Chain {
        pages: *pages,
        holder,
        reference,
    };
    let count = check_pages(source, &chain, text, marks, page, steps)?;
    if !text.is_text() {
        return Err(Halt::Broken(Rule::TextSpelling.at(holder)));
    }
    Ok(count)
}

/// Checks the chain of an externally stored field in an audited space, as `check_chain_in` does. `segment` is the one
/// of the clustered leaves.
pub fn check_chain<S: PageSource, L: Ledger>(
    source: &mut S,
    space: &Space,
    segment: u32,
    holder: u32,
    reference: &Reference,
    text: &mut Utf8,
    marks: &mut Marks,
    page: &mut Page,
    steps: &mut Steps<L>,
) -> Result<u32, Halt>
    requires audit { OfFile S.PageSource source.old (λ file. IsAuditOf file space.now) }
    requires members { length marks.old ≡ space.now.size }
    requires count { CountsUpTo 16384 text.old }
    ensures exact { OfFile S.PageSource source.old (λ file. (fed : List ℕ) → WasFed text.old fed
        → Halts result (ChainChecks file segment holder reference.now (is_set marks.old)
        (λ bytes. TakesText text.old (fed ++ bytes)))) }
    ensures count { IfOk result (λ count. OfFile S.PageSource source.old (λ file.
        count ≡ length (chain_pages file reference.now))) }
    ensures grew { OnOk result (OfFile S.PageSource source.old (λ file.
        Marked (is_set marks.old) marks.new (chain_pages file reference.now))) }
    ensures members { length marks.new ≡ length marks.old }
    ensures marked { StaysMarked marks.old marks.new }
    ensures cost { steps.new + unmarked marks.new ≤ steps.old + unmarked marks.old + 1 }
    ensures fewer { IfOk result (λ count. count + unmarked marks.new ≤ unmarked marks.old) }
    ensures exactly { IfOk result (λ count. steps.new ≡ steps.old + count) }
    ensures over { HaltsOver S.PageSource source.old source.new steps.old steps.new result }
{
    let pages = ChainPages::Audited { space, segment };
    check_chain_in(source, &pages, holder, reference, text, marks, page, steps)
}
