//! The pages of segments that no tree and no chain reaches.

ghost use Rattle.std.specs.Prelude.{◌≡◌, ◌↔◌, ◌<◌, ℕ, List, length, filter, IsTrue, Contains, IfOk};
ghost use Rattle.std.specs.List.{range_with_len};
ghost use Rattle.page_source.specs.Checks.{Finds};
ghost use Rattle.space_header.specs.Header.{size_of};
ghost use Rattle.schema_text.specs.TableDef.{TableDef};
ghost use Rattle.space_audit.specs.Owners.{IsUsedBy};
ghost use Rattle.space_audit.specs.Space.{IsAuditOf};
ghost use Rattle.table_check.specs.First.{UnreachedChecks, IsLeftOver, is_unreached};
ghost use Rattle.table_check.specs.Taken.{IsReached};
ghost use Rattle.table_check.specs.Trees.{leaf_segments};

use fil_frame::kinds::{FIL_PAGE_TYPE_ALLOCATED, FIL_PAGE_TYPE_BLOB};
use page_source::{Fault, Rule};
use space_audit::{Marks, Owner, Space};

/// Whether a page that this segment uses is one that was freed, or that holds an old version, in the segment of some
/// index's leaves.
fn is_left_over(space: &Space, leaves: &[u32], segment: u32, n: u32) -> bool
    requires { n < space.now.size }
    ensures { (file : List ℕ) (table : TableDef) → IsAuditOf file space.now → leaves.now ≡ leaf_segments file table
        → IsUsedBy file segment n → IsTrue result ↔ IsLeftOver file table n }
{
    leaves.contains(&segment)
        && (space.has_page(segment, FIL_PAGE_TYPE_ALLOCATED, n)
            || space.has_page(segment, FIL_PAGE_TYPE_BLOB, n))
}

/// Counts the pages that a segment uses and that aren't marked, all of which are left over (rule 50).
pub(crate) fn count_unreached(space: &Space, leaves: &[u32], marks: &Marks) -> Result<u32, Fault>
    requires { length marks.now ≡ space.now.size }
    ensures exact { (file : List ℕ) (table : TableDef) → IsAuditOf file space.now
        → leaves.now ≡ leaf_segments file table → IsReached file table marks.now
        → Finds result (UnreachedChecks file table) }
    ensures count { IfOk result (λ count. (file : List ℕ) (table : TableDef) → IsAuditOf file space.now
        → IsReached file table marks.now
        → count ≡ length (filter (is_unreached file table) (range_with_len 0 (size_of file)))) }
{
    let mut count = 0;
    for n in 0..space.size() {
        let Owner::Used(segment) = space.owner(n) else {
            continue;
        };
        if marks.has(n) {
            continue;
        }
        if !is_left_over(space, leaves, segment, n) {
            return Err(Rule::UnreachedKind.at(n));
        }
        count += 1;
    }
    Ok(count)
}
