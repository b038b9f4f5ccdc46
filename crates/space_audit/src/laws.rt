//! Laws of the definitions.

ghost use Rattle.space_audit.specs.Laws.{AuditIsSoundness, ClaimsArePartition, OwnersAreClaims};
ghost use Rattle.space_audit.specs.Laws.{FragmentClaimsAreEnough};

use extent_map::laws::{
    descriptor_checks_are_sound, head_checks_are_sound, used_pages_are_of_extents,
};
use inode_segments::laws::inode_checks_are_sound;

/// The audit finds nothing exactly in a sound space.
pub fn audit_is_soundness()
    ensures { AuditIsSoundness }
{
    head_checks_are_sound();
    descriptor_checks_are_sound();
    inode_checks_are_sound();
    used_pages_are_of_extents();
}

/// Where the checks of ownership hold, the claims are a partition.
pub fn claims_are_partition()
    ensures { ClaimsArePartition }
{
    head_checks_are_sound();
    descriptor_checks_are_sound();
    inode_checks_are_sound();
    used_pages_are_of_extents();
}

/// Where the checks of ownership hold, a segment uses exactly the used pages that it claims.
pub fn owners_are_claims()
    ensures { OwnersAreClaims }
{
    head_checks_are_sound();
    descriptor_checks_are_sound();
    inode_checks_are_sound();
    used_pages_are_of_extents();
}

/// Where each used page of a fragment extent is claimed once, all claims are a partition, and a segment uses exactly
/// the used pages that it claims.
pub fn fragment_claims_are_enough()
    ensures { FragmentClaimsAreEnough }
{
    used_pages_are_of_extents();
}
