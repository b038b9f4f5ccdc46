//! The pages of trees, once their records are packed.

ghost use Rattle.std.specs.Prelude.{◌≡◌, ◌<◌};
ghost use Rattle.space_builder.specs.layout.TreePage.{heads_of};
ghost use Rattle.space_builder.specs.layout.TreeSpot.{heads_if, page_at_spot};

use fil_frame::kinds::FIL_PAGE_INDEX;
use fil_frame::seal;
use page_packer::{Heads, Packer};
use page_source::Page;

/// Where a page of a tree stands.
#[derive(Clone, Copy, Debug, PartialEq, Eq)]
pub(crate) struct TreeSpot {
    /// The number of the page.
    pub(crate) number: u32,
    /// The number of the page before this one on its level.
    pub(crate) prev: u32,
    /// The number of the page after this one on its level.
    pub(crate) next: u32,
    /// The index of the tree, counted from 0.
    pub(crate) index: u16,
    /// Whether the page is the root.
    pub(crate) root: bool,
}

/// The segment headers of the root of an index.
fn heads_of(index: u16) -> Heads
    requires { index < 16 }
    ensures { result ≡ heads_of index }
{
    Heads {
        space: 1,
        page: 2,
        leaf: 50 + 192 * (2 * index + 1),
        top: 50 + 192 * (2 * index),
    }
}

fn heads_if(root: bool, index: u16) -> Option<Heads>
    requires { index < 16 }
    ensures { result ≡ heads_if root index }
{
    if root { Some(heads_of(index)) } else { None }
}

/// Makes `page` the page of the records that were pushed, at its spot.
pub(crate) fn put_tree_page(packer: &mut Packer, page: &mut Page, spot: TreeSpot)
    requires { spot.index < 16 }
    ensures page { page.new ≡ page_at_spot packer.old spot }
    ensures same { packer.new ≡ packer.old }
{
    let heads = heads_if(spot.root, spot.index);
    packer.finish(spot.prev, spot.next, u64::from(spot.index) + 1, heads, page);
    seal(page, spot.number, 1, 1, FIL_PAGE_INDEX);
}
