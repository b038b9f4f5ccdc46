//! Addresses of list nodes, and the bases and nodes of lists (fut0lst).

ghost use Rattle.std.specs.Prelude.{◌≡◌, ◌+◌, ◌≤◌, ◌↔◌, IsTrue};
ghost use Rattle.page_source.specs.Pages.{with_bytes};
ghost use Rattle.space_header.specs.Header.{address_at, base_at, node_at, IsNull};
ghost use Rattle.space_header.specs.Writing.{address_bytes, base_bytes, node_bytes, FitsAddress, FitsBase};

use page_source::{FIL_NULL, PAGE_SIZE, Page, read_be, write_be};

/// The address of a list node (fil_addr_t): its page, and its byte there. It takes 6 bytes.
#[derive(Clone, Copy, Debug, PartialEq, Eq)]
pub struct Address {
    /// FIL_ADDR_PAGE, 4 bytes at 0: the page number; FIL_NULL where the address is null.
    pub page: u32,
    /// FIL_ADDR_BYTE, 2 bytes at 4: the byte of the page at which the node begins.
    pub offset: u16,
}

/// The base of a list (flst_base_node_t). It takes 16 bytes.
#[derive(Clone, Copy, Debug, PartialEq, Eq)]
pub struct Base {
    /// FLST_LEN, 4 bytes at 0: how many members the list has.
    pub length: u32,
    /// FLST_FIRST, 6 bytes at 4: the first node; null where the list is empty.
    pub first: Address,
    /// FLST_LAST, 6 bytes at 10: the last node; null where the list is empty.
    pub last: Address,
}

/// The node of a member of a list (flst_node_t). It takes 12 bytes.
#[derive(Clone, Copy, Debug, PartialEq, Eq)]
pub struct Node {
    /// FLST_PREV, 6 bytes at 0: the node before; null in the first one.
    pub prev: Address,
    /// FLST_NEXT, 6 bytes at 6: the node behind; null in the last one.
    pub next: Address,
}

/// Whether the address is null: its page is FIL_NULL, and its byte may be any.
pub fn is_null(address: &Address) -> bool
    ensures { IsTrue result ↔ IsNull address.now }
{
    address.page == FIL_NULL
}

#[tactic(auto, unfolding(crate::specs::Header::address_at))]
fn read_address(page: &Page, at: usize) -> Address
    requires { at + 6 ≤ 16384 }
    ensures { result ≡ address_at page.now at }
{
    Address {
        page: read_be::<4>(page, at) as u32,
        offset: read_be::<2>(page, at + 4) as u16,
    }
}

fn write_address(page: &mut Page, at: usize, address: &Address)
    requires { at + 6 ≤ 16384 }
    ensures exact { page.new ≡ with_bytes page.old at (address_bytes address.now) }
    ensures fits { FitsAddress address.now }
{
    prove!(page.bytes().len() == PAGE_SIZE);
    write_be::<4>(page, at, u64::from(address.page));
    write_be::<2>(page, at + 4, u64::from(address.offset));
}

/// The list base that begins at byte `at` of the page.
#[tactic(auto, unfolding(crate::specs::Header::base_at))]
pub fn read_base(page: &Page, at: usize) -> Base
    requires { at + 16 ≤ 16384 }
    ensures { result ≡ base_at page.now at }
{
    Base {
        length: read_be::<4>(page, at) as u32,
        first: read_address(page, at + 4),
        last: read_address(page, at + 10),
    }
}

/// Makes this the list base that begins at byte `at` of the page. The other bytes stay.
pub fn write_base(page: &mut Page, at: usize, base: &Base)
    requires { at + 16 ≤ 16384 }
    ensures exact { page.new ≡ with_bytes page.old at (base_bytes base.now) }
    ensures read { base_at page.new at ≡ base.now }
{
    prove!(page.bytes().len() == PAGE_SIZE);
    put_base(page, at, base);
}

/// Makes this the list base that begins at byte `at` of the page, as `write_base` does.
pub(crate) fn put_base(page: &mut Page, at: usize, base: &Base)
    requires { at + 16 ≤ 16384 }
    ensures exact { page.new ≡ with_bytes page.old at (base_bytes base.now) }
    ensures fits { FitsBase base.now }
{
    prove!(page.bytes().len() == PAGE_SIZE);
    write_be::<4>(page, at, u64::from(base.length));
    write_address(page, at + 4, &base.first);
    write_address(page, at + 10, &base.last);
}

/// The list node that begins at byte `at` of the page.
#[tactic(auto, unfolding(crate::specs::Header::node_at))]
pub fn read_node(page: &Page, at: usize) -> Node
    requires { at + 12 ≤ 16384 }
    ensures { result ≡ node_at page.now at }
{
    Node {
        prev: read_address(page, at),
        next: read_address(page, at + 6),
    }
}

/// Makes this the list node that begins at byte `at` of the page. The other bytes stay.
pub fn write_node(page: &mut Page, at: usize, node: &Node)
    requires { at + 12 ≤ 16384 }
    ensures exact { page.new ≡ with_bytes page.old at (node_bytes node.now) }
    ensures read { node_at page.new at ≡ node.now }
{
    prove!(page.bytes().len() == PAGE_SIZE);
    write_address(page, at, &node.prev);
    write_address(page, at + 6, &node.next);
}
