//! What the descriptor pages tell, as they are met one after another.

ghost use Rattle.std.specs.Prelude.{◌≡◌, ◌↔◌, ◌+◌, ◌≤◌, ℕ, Bool, true, false, List, IsTrue, IfOk};
ghost use Rattle.page_source.specs.Pages.{page_of};
ghost use Rattle.fil_frame.specs.Frame.{kind_of};
ghost use Rattle.leaf_salvage.specs.Standing.{Stands};
ghost use Rattle.leaf_salvage.specs.Unused.{IsUnused, map_kind, is_clear_on};
ghost use Rattle.leaf_salvage.specs.Known.{Knows};

use crate::standing::stands;
use extent_map::layout::BITMAP;
use fil_frame::kind;
use fil_frame::kinds::{FIL_PAGE_TYPE_FSP_HDR, FIL_PAGE_TYPE_XDES};
use page_source::{NoMemory, Page, read_be};
use space_header::layout::FREE_LIMIT;
use space_header::{DESCRIBED_PAGES, DESCRIPTOR_SIZE, FIRST_DESCRIPTOR};
use std::alloc::Global;
use std::marker::Model;

/// What the descriptor pages tell that were met so far: the free limit, and the last of these pages.
#[derive(Debug, Drop)]
pub struct Descriptors {
    limit: Option<u32>,
    page: Page,
    told: bool,
}

impl Model for Descriptors {
    ghost use Rattle.std.specs.Prelude.{Some, None, if◌then◌else◌};
    ghost use Rattle.leaf_salvage.specs.Known.{Known};

    ghost Value = { Known };

    ghost view = { λ d. record { limit = d.limit; map = if d.told then Some d.page else None } };
}

/// The type of a descriptor page.
fn map_kind(d: u32) -> u16
    ensures { result ≡ map_kind d }
{
    if d == 0 {
        FIL_PAGE_TYPE_FSP_HDR
    } else {
        FIL_PAGE_TYPE_XDES
    }
}

/// Whether a descriptor page calls page `n` used.
fn is_clear_on(map: &Page, n: u32) -> bool
    ensures { result ≡ is_clear_on map.now n }
{
    let extent = n as usize / 64 % 256;
    let j = n as usize % 64;
    let at = FIRST_DESCRIPTOR as usize + DESCRIPTOR_SIZE as usize * extent + BITMAP + j / 4;
    (map.bytes()[at] >> (2 * (j % 4))) % 2 == 0
}

/// Whether page `n` stands and has the type of a descriptor page.
fn is_map(page: &Page, n: u32) -> bool
    ensures { IsTrue result ↔ (Stands page.now n × (kind_of page.now ≡ map_kind n)) }
{
    stands(page, n) && kind(page) == map_kind(n)
}

/// Makes a page another one.
#[tactic(auto, using(crate::proofs::Maps::with_all_bytes))]
fn copy(to: &mut Page, from: &Page)
    ensures { to.new ≡ from.now }
{
    let _size = to.bytes().len();
    to.put_bytes(0, from.bytes());
}

impl Descriptors {
    /// What the descriptor pages tell before the first page was met: nothing.
    pub fn new(alloc: Global) -> Result<Descriptors, NoMemory>
        ensures { IfOk result (λ known. (file : List ℕ) (missed : ℕ → Bool) → Knows file missed 0 known) }
    {
        Ok(Descriptors {
            limit: None,
            page: Page::zeroed(alloc)?,
            told: false,
        })
    }

    /// Whether page `n` is known to be free, by the pages below it. If it is, what is known serves for the next
    /// page too.
    pub fn is_unused(&self, n: u32) -> bool
        ensures told { (file : List ℕ) (missed : ℕ → Bool) → Knows file missed n self.now
            → IsTrue result ↔ IsUnused file missed n }
        ensures next { (file : List ℕ) (missed : ℕ → Bool) → Knows file missed n self.now → IsTrue result
            → Knows file missed (n + 1) self.now }
    {
        if n == 0 {
            return false;
        }
        if let Some(limit) = self.limit
            && limit <= n
        {
            return true;
        }
        n % DESCRIBED_PAGES != 0 && self.told && !is_clear_on(&self.page, n)
    }

    /// Page `n` was fetched.
    #[tactic(auto, using(crate::proofs::Maps::learned_first, crate::proofs::Maps::learned_later))]
    pub fn learn(&mut self, n: u32, page: &Page)
        ensures { (file : List ℕ) (missed : ℕ → Bool) → missed n ≡ false → page.now ≡ page_of file n
            → Knows file missed n self.old → Knows file missed (n + 1) self.new }
    {
        if n % DESCRIBED_PAGES != 0 {
            return;
        }
        self.told = is_map(page, n);
        copy(&mut self.page, page);
        if n == 0 {
            self.limit = if self.told {
                Some(read_be::<4>(page, FREE_LIMIT) as u32)
            } else {
                None
            };
        }
    }

    /// Page `n` couldn't be fetched.
    pub fn miss(&mut self, n: u32)
        ensures { (file : List ℕ) (missed : ℕ → Bool) → missed n ≡ true
            → Knows file missed n self.old → Knows file missed (n + 1) self.new }
    {
        if n % DESCRIBED_PAGES == 0 {
            self.told = false;
        }
        if n == 0 {
            self.limit = None;
        }
    }
}
