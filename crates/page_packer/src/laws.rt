//! What a packed page holds, each the contract of a function that does nothing.

ghost use Rattle.page_packer.specs.Laws.{PacksPushed, PacksIndexPage, PacksWholePage, PushesEntries};
ghost use Rattle.page_packer.specs.Laws.{PacksNumbers, PointersPoint, HasOwnBody, SealingKeepsBody, SealedHasBody};

/// To push entries one after another is to push them all.
pub fn entries_are_pushed_in_order()
    ensures { PushesEntries }
{}

/// Entries that may make a page are held by their page, in order, as the records of an index page: whichever of them
/// have the minimum mark, and so those of a page of a tree.
pub fn a_page_holds_its_entries()
    ensures pushed { PacksPushed }
    ensures entries { PacksIndexPage }
    ensures whole { PacksWholePage }
{}

/// A page has the numbers that it was packed with.
pub fn a_page_has_its_numbers()
    ensures { PacksNumbers }
{}

/// A page that is sealed keeps its body.
pub fn sealing_keeps_the_body()
    ensures own { HasOwnBody }
    ensures seals { SealingKeepsBody }
    ensures sealed { SealedHasBody }
{}

/// The pointer to a page fits the node pointers of its index, has the key of the page's first entry, and leads there.
pub fn pointers_lead_to_their_pages()
    ensures { PointersPoint }
{}
