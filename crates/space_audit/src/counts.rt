//! The numbers of used pages that page 0 and the inodes state (rule 23).

ghost use Rattle.std.specs.Prelude.{◌≡◌, ◌+◌, ◌*◌, List, ℕ, length};
ghost use Rattle.page_source.specs.Checks.{Finds};
ghost use Rattle.space_header.specs.Header.{head_of};
ghost use Rattle.extent_map.specs.declared.extent.Extent.{Extent};
ghost use Rattle.space_audit.specs.Lists.{AreHomes};
ghost use Rattle.space_audit.specs.Audit.{CountChecks};
ghost use Rattle.space_audit.specs.Read.{IsRead};

use crate::homes::Homes;
use extent_map::laws::used_pages_are_of_extents;
use inode_segments::Inodes;
use page_source::{Fault, Rule};
use space_header::SpaceHeader;

/// Checks FRAG_N_USED, and then NOT_FULL_N_USED of each segment.
pub(crate) fn check_counts(
    header: &SpaceHeader,
    inodes: &Inodes,
    homes: &Homes,
) -> Result<(), Fault>
    requires { homes.now.lists ≡ 3 + 3 * length inodes.now.places }
    ensures { (file : List ℕ) (extents : List Extent) → IsRead file extents inodes.now → AreHomes file homes.now
        → header.now ≡ head_of file → Finds result (CountChecks file) }
{
    used_pages_are_of_extents();
    if header.frag_used != homes.used(1) {
        return Err(Rule::UseCounts.at(0));
    }
    for s in 0..inodes.count() {
        if inodes.inode(s).not_full_used != homes.used(3 + 3 * s + 1) {
            return Err(Rule::UseCounts.at(inodes.place(s).page));
        }
    }
    Ok(())
}
