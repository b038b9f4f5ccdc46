//! The first three pages of a tablespace, by how many pages each segment has.

ghost use Rattle.std.specs.Prelude.{◌≡◌, length};
ghost use Rattle.space_layout.specs.Numbers.{IsShape, extents_needed};
ghost use Rattle.space_layout.specs.HeadPages.{header_page, bitmap_page, inode_page};
ghost use Rattle.space_layout.specs.calls.Written.{with_descriptors, with_inodes};

use crate::fields::{
    BUILT_SPACE, INODE_PAGE_NUMBER, fragment_descriptor, header, inode, own_descriptor,
};
use crate::numbers::{extent_start, extents_of, fragment_extents};
use crate::runs::NULL;
use extent_map::write_extent;
use fil_frame::kinds::{FIL_PAGE_IBUF_BITMAP, FIL_PAGE_INODE, FIL_PAGE_TYPE_FSP_HDR};
use fil_frame::seal;
use inode_segments::layout::{FIRST_INODE, INODE_PAGE_NODE, INODE_SIZE};
use inode_segments::write_inode;
use page_source::{PAGE_SIZE, Page};
use space_header::{DESCRIPTOR_SIZE, FIRST_DESCRIPTOR, Node, write_node};

/// The LSN of each page.
const LSN: u64 = 1;

fn put_descriptors(page: &mut Page, sizes: &[u32])
    requires { IsShape sizes.now }
    ensures { page.new ≡ with_descriptors page.old sizes.now (extents_needed sizes.now) }
{
    prove!(page.bytes().len() == PAGE_SIZE);
    for e in 0..fragment_extents(sizes) {
        let extent = fragment_descriptor(sizes, e);
        write_extent(
            page,
            FIRST_DESCRIPTOR as usize + DESCRIPTOR_SIZE as usize * e as usize,
            &extent,
        );
    }
    for s in 0..sizes.len() {
        let start = extent_start(sizes, s);
        for k in 0..extents_of(sizes[s]) {
            let extent = own_descriptor(sizes, s, k);
            write_extent(
                page,
                FIRST_DESCRIPTOR as usize + DESCRIPTOR_SIZE as usize * (start + k) as usize,
                &extent,
            );
        }
    }
}

fn put_inodes(page: &mut Page, sizes: &[u32])
    requires { IsShape sizes.now }
    ensures { page.new ≡ with_inodes page.old sizes.now (length sizes.now) }
{
    prove!(page.bytes().len() == PAGE_SIZE);
    for s in 0..sizes.len() {
        let inode = inode(sizes, s);
        write_inode(page, FIRST_INODE + INODE_SIZE * s, &inode);
    }
}

/// Makes a page the header page.
pub fn put_header_page(page: &mut Page, sizes: &[u32], flags: u32)
    requires { IsShape sizes.now }
    ensures { page.new ≡ header_page sizes.now flags }
{
    page.clear();
    header(sizes, flags).write(page);
    put_descriptors(page, sizes);
    seal(page, 0, BUILT_SPACE, LSN, FIL_PAGE_TYPE_FSP_HDR);
}

/// Makes a page the bitmap page.
#[tactic(auto, unfolding(crate::specs::HeadPages::bitmap_page, crate::specs::HeadPages::zeros))]
pub fn put_bitmap_page(page: &mut Page)
    ensures { page.new ≡ bitmap_page }
{
    page.clear();
    seal(page, 1, BUILT_SPACE, LSN, FIL_PAGE_IBUF_BITMAP);
}

/// Makes a page the inode page.
pub fn put_inode_page(page: &mut Page, sizes: &[u32])
    requires { IsShape sizes.now }
    ensures { page.new ≡ inode_page sizes.now }
{
    page.clear();
    write_node(
        page,
        INODE_PAGE_NODE as usize,
        &Node {
            prev: NULL,
            next: NULL,
        },
    );
    put_inodes(page, sizes);
    seal(page, INODE_PAGE_NUMBER, BUILT_SPACE, LSN, FIL_PAGE_INODE);
}
