//! The leaves of an index, each by itself.

ghost use Rattle.std.specs.Prelude.{◌≡◌, ◌↔◌, ◌≤◌, IsTrue, All, length};
ghost use Rattle.leaf_salvage.specs.Leaf.{IsZeros, IsLeafOf, LeafChecks, LeafVerdict};

use crate::standing::stands;
use crate::verdict::Verdict;
use column_values::FieldList;
use fil_frame::kind;
use fil_frame::kinds::FIL_PAGE_INDEX;
use index_page::layout::{INDEX_ID, LEVEL};
use index_page::{Scratch, page_fault};
use page_source::{Page, Rule, read_be};

/// Whether all these bytes are zero.
fn are_zeros(bytes: &[u8]) -> bool
    ensures { IsTrue result ↔ All (λ b. b ≡ 0) bytes.now }
{
    bytes.iter().all(|byte| *byte == 0)
}

/// Whether all bytes of the page are zero.
#[tactic(auto, using(crate::proofs::Zeros::is_zero_page))]
fn is_zeros(page: &Page) -> bool
    ensures { IsTrue result ↔ IsZeros page.now }
{
    are_zeros(page.bytes())
}

/// Whether a page says that it is a leaf of this index.
fn is_leaf_of(page: &Page, id: u64) -> bool
    ensures { IsTrue result ↔ IsLeafOf page.now id }
{
    kind(page) == FIL_PAGE_INDEX
        && read_be::<2>(page, LEVEL) == 0
        && read_be::<8>(page, INDEX_ID) == id
}

/// The first of the rules 33 to 41 that a leaf breaks.
#[tactic(auto, using(crate::proofs::Checks::checks_none, crate::proofs::Checks::checks_after, crate::proofs::Checks::checks_among))]
fn leaf_fault(scratch: &mut Scratch, page: &Page, fields: &FieldList) -> Option<Rule>
    requires few { fields.now.keys ≤ length fields.now.fields }
    requires room { length fields.now.fields ≤ scratch.old }
    ensures exact { LeafChecks page.now fields.now result }
    ensures members { scratch.new ≡ scratch.old }
{
    let rule = page_fault(scratch, page, fields, true, true, false)?;
    if rule == Rule::EmptyPage || rule == Rule::KeyOrder {
        None
    } else {
        Some(rule)
    }
}

/// What page `n` is to the index with this id, whose leaf records have these fields: another page if it is all zeros,
/// or stands and is no leaf of it; lost if it doesn't stand (rule 25), or breaks one of the rules 33 to 41, of which
/// the first is named; else a leaf. Nothing is said of what the scratch holds afterwards.
pub fn leaf_verdict(
    scratch: &mut Scratch,
    page: &Page,
    n: u32,
    id: u64,
    fields: &FieldList,
) -> Verdict
    requires few { fields.now.keys ≤ length fields.now.fields }
    requires room { length fields.now.fields ≤ scratch.old }
    ensures exact { LeafVerdict page.now n id fields.now result }
    ensures members { scratch.new ≡ scratch.old }
{
    if is_zeros(page) {
        return Verdict::Other;
    }
    if !stands(page, n) {
        return Verdict::Lost(Rule::Frame);
    }
    if !is_leaf_of(page, id) {
        return Verdict::Other;
    }
    match leaf_fault(scratch, page, fields) {
        Some(rule) => Verdict::Lost(rule),
        None => Verdict::Leaf,
    }
}
