//! The used inodes of a tablespace, and the pages where they stand.

ghost use Rattle.std.specs.Prelude.{◌≡◌, ◌<◌, ◌≤◌, ◌++◌, true, false, length, slice_get, slice_set, Some, IfOk, OnOk};
ghost use Rattle.page_source.specs.Lists.{flag_in};
ghost use Rattle.inode_segments.specs.Inodes.{inode_byte, is_used_place, used_places, places_on, used_on};
ghost use Rattle.inode_segments.specs.Kept.{none_kept};

use crate::inode::{Inode, read_inode};
use crate::layout::{FIRST_INODE, INODE_SIZE};
use page_source::{NoMemory, Page, read_be};
use space_header::Address;
use std::alloc::Global;
use std::marker::Model;

/// FSP_SEG_INODES_PER_PAGE.
pub const INODES: u32 = 85;

/// A segment: where its inode stands, and what it is.
#[derive(Clone, Copy, Debug)]
struct Segment {
    place: Address,
    inode: Inode,
}

/// The used inodes of a tablespace, in the order of the lists of inode pages, and on a page by
/// their places. For each page below the size it keeps whether it stands on such a list.
#[derive(Debug, Drop)]
pub struct Inodes {
    segments: Vec<Segment>,
    pages: Vec<bool>,
}

impl Model for Inodes {
    ghost use Rattle.std.specs.Prelude.{◌≤◌, ◌+◌, ◌*◌, map, length};
    ghost use Rattle.page_source.specs.Lists.{unmarked};
    ghost use Rattle.inode_segments.specs.declared.inodes.Segment.{Segment};
    ghost use Rattle.inode_segments.specs.Kept.{InodesView};

    ghost Value = { InodesView };

    ghost view = { λ all. record {
      places = map (λ (s : Segment). s.place) all.segments.items;
      inodes = map (λ (s : Segment). s.inode) all.segments.items;
      pages = all.pages.items;
    } };

    ghost invariant = { λ all.
        (length all.segments.items + 85 * unmarked all.pages.items ≤ 85 * length all.pages.items)
        × (length all.pages.items ≤ 4194304) };
}

impl Inodes {
    /// No inode yet, of a tablespace of so many pages.
    pub(crate) fn none(alloc: Global, size: u32) -> Result<Inodes, NoMemory>
        requires { size ≤ 4194304 }
        ensures { IfOk result (λ inodes. inodes ≡ none_kept size) }
    {
        Ok(Inodes {
            segments: Vec::new(alloc),
            pages: Vec::from_elem(alloc, false, size as usize)?,
        })
    }

    /// Adds page `n` and its used inodes.
    pub(crate) fn add_page(&mut self, n: u32, page: &Page) -> Result<(), NoMemory>
        requires below { n < length self.old.pages }
        requires new { flag_in self.old.pages n ≡ false }
        ensures pages { OnOk result (self.new.pages ≡ slice_set self.old.pages n true) }
        ensures places { OnOk result (self.new.places ≡ self.old.places ++ places_on n page.now) }
        ensures inodes { OnOk result (self.new.inodes ≡ self.old.inodes ++ used_on page.now) }
    {
        self.pages[n as usize] = true;
        for k in 0..INODES {
            if is_used(page, k) {
                let at = inode_place(k);
                let place = Address {
                    page: n,
                    offset: at as u16,
                };
                let inode = read_inode(page, at);
                self.segments.push(Segment { place, inode })?;
            }
        }
        Ok(())
    }

    /// The number of used inodes, which is that of segments.
    pub fn count(&self) -> u32
        ensures count { result ≡ length self.now.places }
        ensures same { result ≡ length self.now.inodes }
        ensures most { result ≤ 356515840 }
    {
        self.segments.len() as u32
    }

    /// Inode `i` in that order.
    pub fn inode(&self, i: u32) -> &Inode
        requires { i < length self.now.places }
        ensures { slice_get self.now.inodes i ≡ Some result.now }
    {
        &self.segments[i as usize].inode
    }

    /// The address of inode `i`: its page, and the byte there at which it begins.
    pub fn place(&self, i: u32) -> Address
        requires { i < length self.now.places }
        ensures { slice_get self.now.places i ≡ Some result }
    {
        self.segments[i as usize].place
    }

    /// Whether a page stands on one of the two lists of inode pages. None from the size on does.
    pub fn is_inode_page(&self, page: u32) -> bool
        ensures { result ≡ flag_in self.now.pages page }
    {
        self.pages.get(page as usize).copied().unwrap_or(false)
    }
}

/// Where inode `k` of a page begins.
fn inode_place(k: u32) -> usize
    requires { k < 85 }
    ensures { result ≡ inode_byte k }
{
    FIRST_INODE + INODE_SIZE * k as usize
}

/// Whether inode `k` of a page is used.
fn is_used(page: &Page, k: u32) -> bool
    requires { k < 85 }
    ensures { result ≡ is_used_place page.now k }
{
    read_be::<8>(page, inode_place(k)) != 0
}

/// The number of used inodes of a page.
pub fn used_inodes(page: &Page) -> u32
    ensures { result ≡ length (used_places page.now) }
{
    let mut count = 0;
    for k in 0..INODES {
        if is_used(page, k) {
            count += 1;
        }
    }
    count
}
