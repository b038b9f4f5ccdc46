//! What the definitions of an index page say together, each the contract of a function that does nothing.

ghost use Rattle.index_page.specs.Laws.{HasOneChain, HasOneFreeList, HasAllNumbers, ChecksAreIndexPage};
ghost use Rattle.index_page.specs.Laws.{KeysRiseThroughout};

/// A page has at most one record chain and at most one free list.
#[tactic(auto, using(crate::proofs::ChecksLaw::one_chain, crate::proofs::ChecksLaw::one_free_list))]
pub fn page_has_one_chain()
    ensures chain { HasOneChain }
    ensures free_list { HasOneFreeList }
{}

/// No check is broken exactly where the page is an index page with some records.
#[tactic(auto, using(crate::proofs::ChecksLaw::checks_law))]
pub fn checks_are_an_index_page()
    ensures { ChecksAreIndexPage }
{}

/// The heap numbers of the records of an index page are all numbers from 2 on, below the heap count.
#[tactic(auto, using(crate::proofs::AllNumbers::has_all_numbers))]
pub fn page_has_all_numbers()
    ensures { HasAllNumbers }
{}

/// Keys that rise between neighbours rise over the whole page.
pub fn keys_rise_throughout()
    ensures { KeysRiseThroughout }
{}
