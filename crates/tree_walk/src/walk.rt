//! What a walk works in.

ghost use Rattle.std.specs.Prelude.{◌≡◌, IfOk};
ghost use Rattle.tree_walk.specs.Room.{HasRoom};

use compact_record::Located;
use index_page::Scratch;
use page_source::{NoMemory, Page};
use std::alloc::Global;

/// What a walk works in, so that it takes no memory of its own: three pages, the places of four records, and what the
/// check of a page needs: two lists of marks, and the places of two more records.
#[derive(Drop)]
pub struct Walk {
    /// The page with the node pointer in hand.
    pub parent: Page,
    /// The page behind that of the node pointer in hand, on its level.
    pub after: Page,
    /// The page that is checked.
    pub child: Page,
    /// Where the records of the page that is checked are looked at.
    pub scratch: Scratch,
    /// The node pointer in hand, whose key is the low separator of its child.
    pub low: Located,
    /// The node pointer behind the one in hand, whose key is the high separator of the child.
    pub high: Located,
    /// The first record of the page that is checked.
    pub first: Located,
    /// The last record of the page that is checked.
    pub last: Located,
}

/// Three pages of zeros.
fn three_pages(alloc: Global) -> Result<(Page, Page, Page), NoMemory> {
    Ok((
        Page::zeroed(alloc)?,
        Page::zeroed(alloc)?,
        Page::zeroed(alloc)?,
    ))
}

/// Room for the places of two records.
fn two_records(alloc: Global, members: u32) -> Result<(Located, Located), NoMemory>
    ensures { IfOk result (λ two. (two.0.members ≡ members) × (two.1.members ≡ members)) }
{
    Ok((
        Located::with_room(alloc, members)?,
        Located::with_room(alloc, members)?,
    ))
}

impl Walk {
    /// Room for records of at most so many fields.
    pub fn new(alloc: Global, members: u32) -> Result<Walk, NoMemory>
        ensures { IfOk result (λ walk. HasRoom walk members) }
    {
        // what is in hand if memory runs out is few values, each of which is given back
        let pages = three_pages(alloc)?;
        let separators = two_records(alloc, members)?;
        let ends = two_records(alloc, members)?;
        let scratch = Scratch::new(alloc, members)?;
        let (parent, after, child) = pages;
        let (low, high) = separators;
        let (first, last) = ends;
        Ok(Walk {
            parent,
            after,
            child,
            scratch,
            low,
            high,
            first,
            last,
        })
    }
}
