//! A set of numbers below a count.

ghost use Rattle.std.specs.Prelude.{◌≡◌, ◌<◌, ◌+◌, ◌++◌, ◌∷◌, [], ℕ, List, Bool, length, replicate};
ghost use Rattle.std.specs.Prelude.{slice_set, true, false, IfOk};
ghost use Rattle.page_source.specs.Lists.{unmarked};
ghost use Rattle.space_audit.specs.Marks.{is_set, Marked, StaysMarked};

use page_source::NoMemory;
use std::alloc::Global;
use std::marker::Model;

/// Marks of the numbers below a count, which stays: pages of a space, or its segments.
#[derive(Debug, Drop)]
pub struct Marks {
    flags: Vec<bool>,
}

impl Model for Marks {
    ghost Value = { List Bool };

    ghost view = { λ marks. marks.flags.items };
}

impl Marks {
    /// No number is marked yet, of those from 0 on, so many. It takes a byte each.
    pub fn new(alloc: Global, members: u32) -> Result<Marks, NoMemory>
        ensures { IfOk result (λ marks. marks ≡ replicate members false) }
    {
        Ok(Marks {
            flags: Vec::from_elem(alloc, false, members as usize)?,
        })
    }

    /// Whether a number below the count is marked.
    pub fn has(&self, n: u32) -> bool
        requires { n < length self.now }
        ensures { result ≡ is_set self.now n }
    {
        self.flags[n as usize]
    }

    /// Marks a number below the count; it may be marked already.
    #[tactic(auto, using(crate::proofs::Marking::marked_more, crate::proofs::Marking::marked_still, crate::proofs::Marking::unmarked_fewer))]
    pub fn mark(&mut self, n: u32)
        requires { n < length self.old }
        ensures exact { self.new ≡ slice_set self.old n true }
        ensures members { length self.new ≡ length self.old }
        ensures stays { StaysMarked self.old self.new }
        ensures more { (taken : ℕ → Bool) (list : List ℕ) → Marked taken self.old list
            → Marked taken self.new (list ++ n ∷ []) }
        ensures fewer { is_set self.old n ≡ false → unmarked self.new + 1 ≡ unmarked self.old }
    {
        self.flags[n as usize] = true;
    }
}
