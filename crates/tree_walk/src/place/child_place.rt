//! Whether a page may be one of the tree.

ghost use Rattle.std.specs.Prelude.{◌≡◌, ◌<◌, ◌↔◌, ℕ, List, length, IsTrue, true, false};
ghost use Rattle.space_audit.specs.Marks.{is_set};
ghost use Rattle.space_audit.specs.Owners.{IsUsedBy};
ghost use Rattle.space_audit.specs.Space.{IsAuditOf};
ghost use Rattle.tree_walk.specs.Place.{IsPagePlace};
ghost use Rattle.tree_walk.specs.TreeChecks.{IsRootPlace};

use fil_frame::kinds::FIL_PAGE_INDEX;
use space_audit::{Marks, Owner, Space};

/// Whether a page may be a new one of the tree, used by this segment.
#[tactic(auto, using(crate::proofs::Audit::place_iff))]
pub(crate) fn is_place(space: &Space, marks: &Marks, segment: u32, n: u32) -> bool
    requires { length marks.now ≡ space.now.size }
    ensures place { (file : List ℕ) → IsAuditOf file space.now
        → IsTrue result ↔ IsPagePlace file (is_set marks.now n) segment n }
    ensures members { result ≡ true → n < length marks.now }
    ensures new { result ≡ true → is_set marks.now n ≡ false }
{
    space.has_page(segment, FIL_PAGE_INDEX, n) && !marks.has(n)
}

/// Whether the segment uses a page.
pub(crate) fn is_used_by(space: &Space, segment: u32, n: u32) -> bool
    requires { n < space.now.size }
    ensures { (file : List ℕ) → IsAuditOf file space.now → IsTrue result ↔ IsUsedBy file segment n }
{
    match space.owner(n) {
        Owner::Used(owner) => owner == segment,
        _ => false,
    }
}

/// Whether a page may be the root of a new tree.
pub(crate) fn is_root(space: &Space, marks: &Marks, n: u32) -> bool
    requires { length marks.now ≡ space.now.size }
    ensures place { (file : List ℕ) → IsAuditOf file space.now
        → IsTrue result ↔ IsRootPlace file (is_set marks.now n) n }
    ensures members { result ≡ true → n < length marks.now }
    ensures new { result ≡ true → is_set marks.now n ≡ false }
{
    if n >= space.size() {
        return false;
    }
    match space.owner(n) {
        Owner::Used(segment) => is_place(space, marks, segment, n),
        _ => false,
    }
}
