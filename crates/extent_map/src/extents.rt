//! The extents of a tablespace.

ghost use Rattle.std.specs.Prelude.{◌≡◌, ◌<◌, ◌≤◌, ◌/◌, ◌++◌, IsTrue, [], ◌∷◌};
ghost use Rattle.std.specs.Prelude.{List, ℕ, Some, length, map, slice_get, IfOk, OnOk, OnErr};
ghost use Rattle.extent_map.specs.Extents.{AreExtents, extent_nodes, is_used, used_count};
ghost use Rattle.extent_map.specs.Extents.{is_fragment_extent, is_system_page, is_fragment_page, fragment_flags};

use crate::extent::Extent;
use crate::flags::FlagList;
use crate::states::{FREE_FRAG, FULL_FRAG};
use page_source::NoMemory;
use space_header::{DESCRIBED_PAGES, Node};
use std::alloc::Global;
use std::marker::Model;

/// The descriptors of all extents below the free limit, by their numbers, with their list nodes. Pages
/// `64 * e` to `64 * e + 63` are extent `e`.
#[derive(Debug, Drop)]
pub struct Extents {
    extents: Vec<Extent>,
    nodes: Vec<Node>,
}

impl Model for Extents {
    ghost use Rattle.std.specs.Prelude.{◌≡◌, ◌≤◌, List, map, length};
    ghost use Rattle.extent_map.specs.declared.extent.Extent.{Extent};

    ghost Value = { List Extent };

    ghost view = { λ map. map.extents.items };

    ghost invariant = { λ all. (all.nodes.items ≡ map (λ (x : Extent). x.node) all.extents.items)
        × (length all.extents.items ≤ 65536) };
}

impl Extents {
    /// No extent yet, with room for so many.
    pub(crate) fn with_room(alloc: Global, count: u32) -> Result<Extents, NoMemory>
        ensures { IfOk result (λ extents. extents ≡ []) }
    {
        Ok(Extents {
            extents: Vec::with_capacity(alloc, count as usize)?,
            nodes: Vec::with_capacity(alloc, count as usize)?,
        })
    }

    /// Adds the next extent.
    pub(crate) fn push(&mut self, extent: Extent) -> Result<(), NoMemory>
        requires { length self.old < 65536 }
        ensures ok { OnOk result (self.new ≡ self.old ++ extent ∷ []) }
        ensures err { OnErr result (self.new ≡ self.old) }
    {
        self.extents.reserve(1)?;
        self.nodes.push(extent.node)?;
        self.extents.push(extent)?;
        Ok(())
    }

    /// The number of extents, each of 64 pages.
    pub fn count(&self) -> u32
        ensures count { result ≡ length self.now }
        ensures most { result ≤ 65536 }
    {
        self.extents.len() as u32
    }

    /// The descriptor of extent `e`.
    pub fn extent(&self, e: u32) -> &Extent
        requires { e < length self.now }
        ensures { slice_get self.now e ≡ Some result.now }
    {
        &self.extents[e as usize]
    }

    /// The list nodes of all extents, that of extent `e` at `e`.
    pub fn nodes(&self) -> &[Node]
        ensures exact { result.now ≡ map (λ x. x.node) self.now }
        ensures told { (file : List ℕ) → AreExtents file self.now → result.now ≡ extent_nodes file }
    {
        &self.nodes
    }

    /// Whether a page is used, by the bitmap of its extent. No page at or above the free limit is.
    pub fn is_used(&self, page: u32) -> bool
        ensures told { (file : List ℕ) → AreExtents file self.now → result ≡ is_used file page }
        ensures within { IsTrue result → page / 64 < length self.now }
    {
        let e = page / 64;
        if e >= self.count() {
            return false;
        }
        (self.extent(e).used >> (page % 64)) % 2 == 1
    }

    /// How many of the 64 pages of extent `e` are used.
    pub fn used_count(&self, e: u32) -> u32
        requires { e < length self.now }
        ensures few { result ≤ 64 }
        ensures told { (file : List ℕ) → AreExtents file self.now → result ≡ used_count file e }
    {
        self.extent(e).used.count_ones()
    }

    /// For each page below the free limit, whether it is used, in a fragment extent, and no system
    /// page. It takes a byte a page.
    pub fn fragment_pages(&self, alloc: Global) -> Result<FlagList, NoMemory>
        ensures { IfOk result (λ flags. (file : List ℕ) → AreExtents file self.now → flags ≡ fragment_flags file) }
    {
        let pages = 64 * self.count();
        let mut flags = Vec::with_capacity(alloc, pages as usize)?;
        for n in 0..pages {
            flags.push(self.is_fragment_page(n))?;
        }
        Ok(FlagList::of(flags))
    }

    fn is_fragment_page(&self, page: u32) -> bool
        ensures { (file : List ℕ) → AreExtents file self.now → result ≡ is_fragment_page file page }
    {
        self.is_used(page) && self.is_fragment_extent(page / 64) && !is_system_page(page)
    }

    /// Whether the pages of extent `e` are given out one by one: its state is FREE_FRAG or FULL_FRAG.
    pub fn is_fragment_extent(&self, e: u32) -> bool
        requires { e < length self.now }
        ensures { (file : List ℕ) → AreExtents file self.now → result ≡ is_fragment_extent file e }
    {
        let state = self.extent(e).state;
        state == FREE_FRAG || state == FULL_FRAG
    }
}

/// Whether a page is the system's: page 0 or a later descriptor page, or the bitmap page behind it.
pub fn is_system_page(page: u32) -> bool
    ensures { result ≡ is_system_page page }
{
    page % DESCRIBED_PAGES < 2
}
