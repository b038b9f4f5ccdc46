//! How many pages the levels of a tree have, by the sizes of its records and pointers alone.

ghost use Rattle.std.specs.Prelude.{◌≡◌, ◌≤◌, IfOk, OnOk, OnErr, length};
ghost use Rattle.page_packer.specs.Packing.{sizes_fit};
ghost use Rattle.tree_layout.specs.Counting.{nothing_cut, begins_page, one_more, pages_of, level_above, counts_from};

use page_source::NoMemory;
use std::alloc::Global;
use std::marker::Model;

/// The size of a record, and that of a pointer by its key.
#[derive(Clone, Copy, Debug, PartialEq, Eq)]
pub struct Weight {
    pub size: u16,
    pub pointer: u16,
}

/// Whether so many records of so many bytes together fit one page with their directory.
fn fits(count: u32, total: u32) -> bool
    requires few { count ≤ 65537 }
    requires small { total ≤ 131072 }
    ensures { result ≡ sizes_fit count total }
{
    let fourths = (count + 1) / 4;
    let slots = 1 + if fourths < 1 { 1 } else { fourths };
    120 + total + 2 * slots <= 16376
}

/// A level whose records come one by one. It is seen as its closed pages, each by the size of the pointer to it, and
/// the open page, by the number and bytes of its records and the size of the pointer to it.
#[derive(Debug, Drop)]
pub struct Cut {
    closed: Vec<u16>,
    count: u32,
    total: u32,
    first: u16,
}

impl Model for Cut {
    ghost use Rattle.tree_layout.specs.Counting.{Cutting, IsSmallCut};

    ghost Value = { Cutting };

    ghost view = { λ c. record { closed = c.closed.items; count = c.count; total = c.total; first = c.first } };

    ghost invariant = { λ c. IsSmallCut c.count c.total };
}

impl Cut {
    /// No record yet.
    pub fn new(alloc: Global) -> Cut
        ensures { result ≡ nothing_cut }
    {
        Cut {
            closed: Vec::new(alloc),
            count: 0,
            total: 0,
            first: 0,
        }
    }

    /// Whether a record of this size would be the first of a page.
    pub fn begins(&self, size: u16) -> bool
        ensures { result ≡ begins_page self.now size }
    {
        self.count == 0 || !fits(self.count + 1, self.total + u32::from(size))
    }

    /// Adds a record: on the open page where there is room, and else on a new one.
    #[tactic(auto, unfolding(crate::specs::Counting::one_more))]
    pub fn push(&mut self, weight: Weight) -> Result<(), NoMemory>
        ensures ok { OnOk result (self.new ≡ one_more self.old weight) }
        ensures err { OnErr result (self.new ≡ self.old) }
    {
        let size = u32::from(weight.size);
        if !fits(self.count + 1, self.total + size) {
            self.closed.push(self.first)?;
            self.count = 1;
            self.total = size;
            self.first = weight.pointer;
            return Ok(());
        }
        if self.count == 0 {
            self.first = weight.pointer;
        }
        self.count += 1;
        self.total += size;
        Ok(())
    }

    /// The pages, each by the size of the pointer to it.
    pub fn pages(self) -> Result<Vec<u16>, NoMemory>
        ensures { IfOk result (λ pages. pages.items ≡ pages_of self) }
    {
        let mut pages = self.closed;
        pages.push(self.first)?;
        Ok(pages)
    }
}

/// The pages of the level above some pages.
fn level_above(alloc: Global, pages: &[u16]) -> Result<Vec<u16>, NoMemory>
    ensures { IfOk result (λ above. above.items ≡ level_above pages.now) }
{
    let mut cut = Cut::new(alloc);
    for k in 0..pages.len() {
        let size = pages[k];
        cut.push(Weight {
            size,
            pointer: size,
        })?;
    }
    cut.pages()
}

/// How many pages each level of a tree with these leaves has, from the leaves up.
pub fn count_levels(alloc: Global, leaves: Vec<u16>) -> Result<Vec<usize>, NoMemory>
    ensures { IfOk result (λ counts. counts.items ≡ counts_from (length leaves.items) leaves.items) }
{
    let most = leaves.len();
    let mut counts = Vec::new(alloc);
    let mut pages = leaves;
    for level in 0..most {
        if pages.len() > 1 {
            counts.push(pages.len())?;
            pages = level_above(alloc, &pages)?;
        }
    }
    counts.push(pages.len())?;
    Ok(counts)
}
