//! Laws of the definitions, each the contract of a function that does nothing.

ghost use Rattle.leaf_salvage.specs.Laws.{WholeLeavesCanBeRead, IndexLeavesAreWhole, HasOneVerdict};

use index_page::laws::checks_are_an_index_page;

/// The records of a leaf that stands whole by itself can be read, the free ones too.
pub fn whole_leaves_can_be_read()
    ensures { WholeLeavesCanBeRead }
{}

/// A leaf that is an index page keeps the rules 33 to 41.
pub fn index_leaves_are_whole()
    ensures { IndexLeavesAreWhole }
{
    checks_are_an_index_page();
}

/// A page has at most one verdict.
#[tactic(auto, using(crate::proofs::Verdicts::one_verdict))]
pub fn page_has_one_verdict()
    ensures { HasOneVerdict }
{}
