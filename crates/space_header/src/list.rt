//! The extents of a list, in order.

ghost use Rattle.std.specs.Prelude.{◌≡◌, ◌≢◌, ◌↔◌, ◌+◌, ◌<◌, ◌≤◌, IsTrue, List, ℕ, length, vec_len, Option, IfNone};
ghost use Rattle.std.specs.Prelude.{IfSome, IfOk, Some, None};
ghost use Rattle.space_header.specs.Header.{extent_address};
ghost use Rattle.space_header.specs.Linked.{PointsTo, LinksExtents};

use crate::address::{Address, Base, Node, is_null};
use page_source::Steps;
use std::alloc::{AllocError, AllocFailed, Global};
use std::marker::Model;
use std::sync::ledger::Ledger;
use thiserror::Error;

/// XDES_ARR_OFFSET, the byte at which the first descriptor of a descriptor page begins.
pub const FIRST_DESCRIPTOR: u32 = 150;

/// The node (XDES_FLST_NODE) in the first descriptor; that in each further one is XDES_SIZE bytes on.
const FIRST_NODE: u16 = FIRST_DESCRIPTOR as u16 + 8;

/// XDES_SIZE, the bytes of a descriptor.
pub const DESCRIPTOR_SIZE: u32 = 40;

/// The extents whose descriptors stand on one page.
pub const DESCRIBED_EXTENTS: u32 = 256;

/// The pages from one descriptor page to the next (UNIV_PAGE_SIZE).
pub const DESCRIBED_PAGES: u32 = 16384;

/// Why `follow` gives no list.
#[derive(Clone, Copy, Debug, PartialEq, Eq, Error)]
pub enum FollowError {
    /// The base and the nodes link no list.
    #[error("no linked list")]
    ChainBroken,
    /// Memory ran out.
    #[error("out of memory")]
    Memory,
}

impl From<AllocError> for FollowError {
    ghost use Rattle.space_header.specs.declared.list.FollowError.{FollowError};

    ghost from_gives = { λ _ error. error ≡ FollowError.Memory };

    fn from(_: AllocError) -> Self {
        FollowError::Memory
    }
}

impl<T: Drop> From<AllocFailed<T>> for FollowError {
    ghost use Rattle.space_header.specs.declared.list.FollowError.{FollowError};

    ghost from_gives = { λ _ error. error ≡ FollowError.Memory };

    fn from(_: AllocFailed<T>) -> Self {
        FollowError::Memory
    }
}

/// The extents of a list, in its order.
#[derive(Debug, Drop)]
pub struct ExtentList {
    extents: Vec<u32>,
}

impl Model for ExtentList {
    ghost Value = { List ℕ };

    ghost view = { λ list. list.extents.items };
}

impl ExtentList {
    /// The extents by their numbers, in the order of the list.
    pub fn items(&self) -> &[u32]
        ensures { result.now ≡ self.now }
    {
        &self.extents
    }
}

/// The address of the list node in the descriptor of an extent: page 0 for the first 256 extents, page
/// 16384 for the next ones.
pub fn descriptor_address(extent: u32) -> Address
    requires { extent < 65536 }
    ensures { result ≡ extent_address extent }
{
    Address {
        page: DESCRIBED_PAGES * (extent / DESCRIBED_EXTENTS),
        offset: FIRST_NODE + (DESCRIPTOR_SIZE * (extent % DESCRIBED_EXTENTS)) as u16,
    }
}

/// The extent below a count whose address this is; none where it is that of no such extent.
fn extent_at(address: &Address, count: usize) -> Option<u32>
    requires { count ≤ 65536 }
    ensures none { IfNone result ((e : ℕ) → e < count → address.now ≢ extent_address e) }
    ensures some { IfSome result (λ e. (e < count) × (address.now ≡ extent_address e)) }
{
    if address.page % DESCRIBED_PAGES != 0 || address.offset < FIRST_NODE {
        return None;
    }
    let holder = address.page / DESCRIBED_PAGES;
    let bytes = u32::from(address.offset - FIRST_NODE);
    let place = bytes / DESCRIPTOR_SIZE;
    if bytes % DESCRIPTOR_SIZE != 0 || place >= DESCRIBED_EXTENTS || holder >= DESCRIBED_EXTENTS {
        return None;
    }
    let extent = holder * DESCRIBED_EXTENTS + place;
    if extent as usize >= count {
        return None;
    }
    Some(extent)
}

/// Whether the address points back to the extent before.
fn points_to(address: &Address, before: Option<u32>) -> bool
    requires { IfSome before (λ e. e < 65536) }
    ensures { IsTrue result ↔ PointsTo extent_address address.now before }
{
    match before {
        None => is_null(address),
        Some(extent) => *address == descriptor_address(extent),
    }
}

/// The extents of the list with this base (flst_base_node_t), where `nodes` has the node of each extent
/// at its number. `ChainBroken` comes exactly where no linked list is there, `Memory` where memory ran
/// out. A node is followed once at the most, in one step.
pub fn follow<L: Ledger>(
    alloc: Global,
    base: &Base,
    nodes: &[Node],
    steps: &mut Steps<L>,
) -> Result<ExtentList, FollowError>
    requires { length nodes.now ≤ 65536 }
    ensures linked { IfOk result (LinksExtents base.now nodes.now) }
    ensures broken { result ≡ Err FollowError.ChainBroken → (list : List ℕ) → ¬ (LinksExtents base.now nodes.now list) }
    ensures followed { IfOk result (λ list. steps.new ≡ steps.old + length list) }
    ensures bound { steps.new ≤ steps.old + length nodes.now }
    ensures onward { steps.old ≤ steps.new }
{
    if base.length as usize > nodes.len() {
        return Err(FollowError::ChainBroken);
    }
    let mut extents = Vec::with_capacity(alloc, base.length as usize)?;
    let mut before = None;
    let mut found = base.first;
    for _place in 0..base.length {
        let Some(extent) = extent_at(&found, nodes.len()) else {
            return Err(FollowError::ChainBroken);
        };
        let node = nodes[extent as usize];
        if !points_to(&node.prev, before) {
            return Err(FollowError::ChainBroken);
        }
        steps.tick();
        extents.push(extent)?;
        before = Some(extent);
        found = node.next;
    }
    if !is_null(&found) {
        return Err(FollowError::ChainBroken);
    }
    if !points_to(&base.last, before) {
        return Err(FollowError::ChainBroken);
    }
    Ok(ExtentList { extents })
}
