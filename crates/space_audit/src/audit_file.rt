//! The whole audit: the rules 1 to 26 in their order.

ghost use Rattle.std.specs.Prelude.{◌≡◌, ◌≢◌, ◌≤◌, ◌+◌, ◌*◌, List, ℕ, length, map, None, Err, IfOk, OnOk};
ghost use Rattle.std.specs.List.{range_with_len};
ghost use Rattle.page_source.specs.Pages.{page_count};
ghost use Rattle.page_source.specs.Lists.{unmarked};
ghost use Rattle.page_source.specs.Checks.{Answers, Finds};
ghost use Rattle.page_source.specs.Calls.{OfFile, StopsOver};
ghost use Rattle.space_header.specs.Header.{head_of, size_of};
ghost use Rattle.extent_map.specs.Head.{HasBounds, HasHeader};
ghost use Rattle.inode_segments.specs.declared.inode.Inode.{Inode};
ghost use Rattle.space_audit.specs.Lists.{AreHomes, ListChecks};
ghost use Rattle.space_audit.specs.Owners.{AreOwners};
ghost use Rattle.space_audit.specs.Holders.{AreHeld, claims_in, first_holder};
ghost use Rattle.space_audit.specs.Audit.{AuditChecks, SpaceChecks, PagesChecks, OwnershipChecks, UseChecks};
ghost use Rattle.space_audit.specs.Audit.{audit_steps, audit_fetches};
ghost use Rattle.space_audit.specs.Space.{IsAuditOf};
ghost use Rattle.space_audit.specs.Read.{IsRead, IsSpaceOf};

use crate::counts::check_counts;
use crate::frames::check_frames;
use crate::homes::{Homes, count_uses, number_homes};
use crate::lists::check_lists;
use crate::numbering::Numbering;
use crate::page_claims::{check_holders, claim_segments, first_holders};
use crate::page_owners::settle_owners;
use crate::space::Space;
use extent_map::laws::{
    descriptor_checks_are_sound, flags_are_fragment_pages, used_pages_are_of_extents,
};
use extent_map::{Extents, check_head, read_extents};
use inode_segments::laws::inode_checks_are_sound;
use inode_segments::{Inodes, read_inodes};
use page_source::{Fault, NoMemory, Page, PageSource, Steps, Stop};
use space_header::SpaceHeader;
use std::alloc::Global;
use std::sync::ledger::Ledger;

/// Audits a tablespace whose flags (FSP_SPACE_FLAGS) are these, with the bit for DATA DIRECTORY or
/// without it, by the rules 1 to 26. Each used page is fetched once, the descriptor pages twice, page 0
/// three times. `Broken` names the first broken rule and its page; `Source` comes where the size or a
/// page couldn't be read, and `Memory` where memory ran out.
pub fn audit<S: PageSource, L: Ledger>(
    alloc: Global,
    source: &mut S,
    flags: u32,
    steps: &mut Steps<L>,
) -> Result<Space, Stop>
    ensures exact { OfFile S.PageSource source.old (λ file. Answers result (AuditChecks file flags)) }
    ensures audited { IfOk result (λ space. OfFile S.PageSource source.old (λ file. IsAuditOf file space)) }
    ensures steps_if_told { OfFile S.PageSource source.old (λ file.
        steps.new ≤ steps.old + audit_steps (page_count file)) }
    ensures sized { IfOk result (λ space. steps.new ≤ steps.old + audit_steps space.size) }
    ensures fetches { IfOk result (λ space.
        S.fetches source.new ≤ S.fetches source.old + audit_fetches space.size space.used) }
    ensures most { steps.new ≤ steps.old + audit_steps 4194304 }
    ensures over { StopsOver S.PageSource source.old source.new steps.old steps.new result }
{
    let mut page = Page::zeroed(alloc)?;
    let header = check_head(source, flags, &mut page, steps)?;
    audit_space(alloc, source, &header, &mut page, steps)
}

/// Audits what stands behind the head.
fn audit_space<S: PageSource, L: Ledger>(
    alloc: Global,
    source: &mut S,
    header: &SpaceHeader,
    page: &mut Page,
    steps: &mut Steps<L>,
) -> Result<Space, Stop>
    requires bounds { HasBounds header.now }
    requires told { OfFile S.PageSource source.old (λ file. HasHeader file header.now) }
    ensures exact { OfFile S.PageSource source.old (λ file. Answers result (SpaceChecks file)) }
    ensures audited { IfOk result (λ space. OfFile S.PageSource source.old (λ file. IsSpaceOf file space)) }
    ensures size { IfOk result (λ space. space.size ≡ header.now.size) }
    ensures cost { steps.new + 1 ≤ steps.old + audit_steps header.now.size }
    ensures fetches { IfOk result (λ space.
        S.fetches source.new + 1 ≤ S.fetches source.old + audit_fetches header.now.size space.used) }
    ensures over { StopsOver S.PageSource source.old source.new steps.old steps.new result }
{
    descriptor_checks_are_sound();
    flags_are_fragment_pages();
    inode_checks_are_sound();
    let extents = read_extents(alloc, source, header, steps)?;
    let fragments = extents.fragment_pages(alloc)?;
    let inodes = read_inodes(alloc, source, header, fragments.flags(), steps)?;
    audit_pages(alloc, source, header, &extents, inodes, page, steps)
}

/// Audits the ownership of all pages and the frames.
fn audit_pages<S: PageSource, L: Ledger>(
    alloc: Global,
    source: &mut S,
    header: &SpaceHeader,
    extents: &Extents,
    inodes: Inodes,
    page: &mut Page,
    steps: &mut Steps<L>,
) -> Result<Space, Stop>
    requires bounds { HasBounds header.now }
    requires pages { length inodes.pages ≡ header.now.size }
    requires told { OfFile S.PageSource source.old (λ file. HasHeader file header.now) }
    requires read { OfFile S.PageSource source.old (λ file. IsRead file extents.now inodes) }
    ensures exact { OfFile S.PageSource source.old (λ file. Answers result (PagesChecks file)) }
    ensures audited { IfOk result (λ space. OfFile S.PageSource source.old (λ file. IsSpaceOf file space)) }
    ensures size { IfOk result (λ space. space.size ≡ header.now.size) }
    ensures cost { steps.new ≤ steps.old + 2 * length extents.now + unmarked inodes.pages }
    ensures fetches { IfOk result (λ space.
        S.fetches source.new + header.now.size ≤ S.fetches source.old + unmarked inodes.pages + space.used) }
    ensures over { StopsOver S.PageSource source.old source.new steps.old steps.new result }
{
    used_pages_are_of_extents();
    let owners = find_owners(alloc, header, extents, &inodes, steps)?;
    let found = check_frames(
        alloc,
        source,
        header.space,
        extents,
        &inodes,
        &owners,
        page,
        steps,
    )?;
    let space = Space::of(alloc, header.space, inodes, owners, found.kinds, found.used)?;
    Ok(space)
}

/// The owners of all pages, by the rules 20 to 24.
fn find_owners<L: Ledger>(
    alloc: Global,
    header: &SpaceHeader,
    extents: &Extents,
    inodes: &Inodes,
    steps: &mut Steps<L>,
) -> Result<Vec<u32>, Stop>
    requires { HasBounds header.now }
    ensures exact { (file : List ℕ) → IsRead file extents.now inodes.now → HasHeader file header.now
        → Answers result (OwnershipChecks file) }
    ensures owners { IfOk result (λ owners. (file : List ℕ) → IsRead file extents.now inodes.now
        → HasHeader file header.now → AreOwners file owners.items) }
    ensures count { IfOk result (λ owners. length owners.items ≡ header.now.size) }
    ensures cost { steps.new ≤ steps.old + 2 * length extents.now }
    ensures onward { steps.old ≤ steps.new }
    ensures source { result ≢ Err Stop.Source }
{
    let homes = read_homes(alloc, extents, inodes)?;
    check_lists(alloc, header, inodes, extents.nodes(), &homes, steps)?;
    let mut owners = first_holders(alloc, inodes, header.size)?;
    settle_use(header, extents, inodes, &homes, &mut owners)?;
    Ok(owners)
}

/// Claims the pages of the fragment extents, and makes the holder of each page the number of its
/// owner.
fn settle_use(
    header: &SpaceHeader,
    extents: &Extents,
    inodes: &Inodes,
    homes: &Homes,
    holders: &mut [u32],
) -> Result<(), Fault>
    requires size { header.now.size ≡ length holders.old }
    requires most { header.now.size ≤ 4194304 }
    requires few { length inodes.now.places ≤ 356515840 }
    requires lists { homes.now.lists ≡ 3 + 3 * length inodes.now.places }
    requires same { length homes.now.numbers ≡ length extents.now }
    requires first { holders.old ≡ map (first_holder inodes.now.pages) (range_with_len 0 header.now.size) }
    ensures exact { (file : List ℕ) → IsRead file extents.now inodes.now → AreHomes file homes.now
        → header.now ≡ head_of file → Finds result (UseChecks file) }
    ensures owners { OnOk result ((file : List ℕ) → IsRead file extents.now inodes.now → AreHomes file homes.now
        → header.now ≡ head_of file → ListChecks file None → AreOwners file holders.new) }
{
    check_use(header, extents, inodes, homes, holders)?;
    settle_owners(extents, homes.numbers(), holders);
    Ok(())
}

/// Checks the slots, the counts and the holders.
#[tactic(auto, unfolding(crate::specs::Audit::UseChecks))]
fn check_use(
    header: &SpaceHeader,
    extents: &Extents,
    inodes: &Inodes,
    homes: &Homes,
    holders: &mut [u32],
) -> Result<(), Fault>
    requires size { header.now.size ≡ length holders.old }
    requires most { header.now.size ≤ 4194304 }
    requires few { length inodes.now.places ≤ 356515840 }
    requires lists { homes.now.lists ≡ 3 + 3 * length inodes.now.places }
    requires first { holders.old ≡ map (first_holder inodes.now.pages) (range_with_len 0 header.now.size) }
    ensures exact { (file : List ℕ) → IsRead file extents.now inodes.now → AreHomes file homes.now
        → header.now ≡ head_of file → Finds result (UseChecks file) }
    ensures held { OnOk result ((file : List ℕ) → IsRead file extents.now inodes.now
        → AreHeld holders.new (claims_in file)) }
{
    claim_segments(extents, inodes, header.size, holders)?;
    check_counts(header, inodes, homes)?;
    check_holders(extents, holders)
}

/// The homes of all extents.
fn read_homes(alloc: Global, extents: &Extents, inodes: &Inodes) -> Result<Homes, NoMemory>
    ensures told { IfOk result (λ homes. (file : List ℕ) → IsRead file extents.now inodes.now → AreHomes file homes) }
    ensures lists { IfOk result (λ homes. homes.lists ≡ 3 + 3 * length inodes.now.places) }
    ensures count { IfOk result (λ homes. length homes.numbers ≡ length extents.now) }
    ensures few { IfOk result (λ _. length inodes.now.places ≤ 356515840) }
{
    let ids = number_ids(alloc, inodes)?;
    let uses = count_uses(alloc, extents)?;
    let numbers = number_homes(alloc, extents, &ids, &uses)?;
    Homes::of(alloc, numbers, uses, 3 + 3 * inodes.count())
}

/// The ids of the segments, in order.
fn number_ids(alloc: Global, inodes: &Inodes) -> Result<Numbering, NoMemory>
    ensures ids { IfOk result (λ ids. ids ≡ map (λ (inode : Inode). inode.id) inodes.now.inodes) }
    ensures few { IfOk result (λ ids. length ids ≤ 356515840) }
{
    let mut ids = Numbering::with_room(alloc, inodes.count())?;
    for s in 0..inodes.count() {
        ids.push(inodes.inode(s).id)?;
    }
    Ok(ids)
}
