//! Laws of the definitions.

ghost use Rattle.offpage_chain.specs.Laws.{HasOneChain, ChecksAreWhole, ChainGoesOn};
ghost use Rattle.offpage_chain.specs.ValuePageLaws.{PartPagesAreRead, ValuePagesAreChain, HeldPartsArePages};

/// A reference leads along one list of pages at the most.
pub fn has_one_chain()
    ensures { HasOneChain }
{}

/// The checks of a chain find nothing exactly where it is that of a whole value.
pub fn checks_are_whole()
    ensures { ChecksAreWhole }
{}

/// The value of a chain can be read along its pages.
pub fn chain_goes_on()
    ensures { ChainGoesOn }
{}

/// A page of a part is read as it was written.
pub fn part_pages_are_read()
    ensures { PartPagesAreRead }
{}

/// The pages of a value are the chain of its reference.
pub fn value_pages_are_chain()
    ensures { ValuePagesAreChain }
{}

/// A map in which the pages of a value were put is a file that has them.
pub fn held_parts_are_pages()
    ensures { HeldPartsArePages }
{}
