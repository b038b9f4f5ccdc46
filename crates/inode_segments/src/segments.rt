//! The checks of the segments' inodes, behind those of the lists.

ghost use Rattle.std.specs.Prelude.{◌≡◌, ◌≢◌, ◌||◌, ◌==◌, not, List, ℕ, Err, IfOk, OnOk};
ghost use Rattle.std.specs.Ordering.{nat_cmp};
ghost use Rattle.std.specs.BTreeSet.{contains};
ghost use Rattle.page_source.specs.Checks.{Answers};
ghost use Rattle.space_header.specs.Header.{head_of};
ghost use Rattle.inode_segments.specs.InodeChecks.{SegmentChecks};
ghost use Rattle.inode_segments.specs.Kept.{AreKept};

use crate::inodes::Inodes;
use crate::layout::MAGIC_NUMBER;
use page_source::{NoMemory, Rule, Stop};
use std::alloc::Global;
use std::collections::BTreeSet;

/// Checks the magics and the ids of the inodes, in order, where `next` is the id that the next
/// segment gets.
pub fn check_segments(alloc: Global, inodes: &Inodes, next: u64) -> Result<(), Stop>
    ensures exact { (file : List ℕ) → AreKept file inodes.now → (head_of file).next_segment ≡ next
        → Answers result (SegmentChecks file) }
    ensures source { result ≢ Err Stop.Source }
{
    let mut ids = BTreeSet::new(alloc);
    for i in 0..inodes.count() {
        let inode = inodes.inode(i);
        let holder = inodes.place(i).page;
        if inode.magic != MAGIC_NUMBER {
            return Err(Rule::SegmentMagic.at(holder).into());
        }
        if inode.id >= next || !add_id(&mut ids, inode.id)? {
            return Err(Rule::SegmentId.at(holder).into());
        }
    }
    Ok(())
}

/// Adds an id, and says whether it is new.
fn add_id(ids: &mut BTreeSet<u64>, id: u64) -> Result<bool, NoMemory>
    ensures new { IfOk result (λ new. new ≡ not (contains nat_cmp ids.old id)) }
    ensures added { OnOk result ((x : ℕ) → contains nat_cmp ids.new x ≡ (contains nat_cmp ids.old x || (x == id))) }
{
    Ok(ids.insert(id)?)
}
