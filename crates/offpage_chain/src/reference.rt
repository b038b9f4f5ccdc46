//! The reference to an externally stored value, the last 20 local bytes of its field (btr0types,
//! btr0cur).

ghost use Rattle.std.specs.Prelude.{◌≡◌, ◌+◌, ◌≤◌, length};
ghost use Rattle.page_source.specs.Pages.{num};
ghost use Rattle.offpage_chain.specs.Reference.{reference_in, reference_bytes, FitsReference};

use byteorder::{BigEndian, ByteOrder};

// The places of the fields, with their names in btr0types.h.

/// BTR_EXTERN_SPACE_ID, 4 bytes.
const SPACE: usize = 0;

/// BTR_EXTERN_PAGE_NO, 4 bytes.
const PAGE: usize = 4;

/// BTR_EXTERN_OFFSET, 4 bytes.
const OFFSET: usize = 8;

/// BTR_EXTERN_LEN, 8 bytes, of which the low 4 count. The others have the flags of the owner.
const LENGTH: usize = 12;

/// Where an externally stored value goes on.
#[derive(Clone, Copy, Debug, PartialEq, Eq)]
pub struct Reference {
    /// The space id.
    pub space: u32,
    /// The first page of the chain.
    pub page: u32,
    /// The byte on that page from which the part's header stands: 38.
    pub offset: u32,
    /// The number of bytes in the chain.
    pub length: u32,
}

/// The reference in these 20 bytes. The flags and the high bytes of the length aren't read.
#[tactic(auto, unfolding(crate::specs::Reference::reference_in))]
pub fn read_reference(bytes: &[u8]) -> Reference
    requires { length bytes.now ≡ 20 }
    ensures { result ≡ reference_in bytes.now }
{
    Reference {
        space: number(bytes, SPACE),
        page: number(bytes, PAGE),
        offset: number(bytes, OFFSET),
        length: number(bytes, LENGTH + 4),
    }
}

fn number(bytes: &[u8], at: usize) -> u32
    requires { at + 4 ≤ length bytes.now }
    ensures { result ≡ num bytes.now at 4 }
{
    BigEndian::read_uint(&bytes[at..at + 4], 4) as u32
}

/// Makes these 20 bytes the reference. The flags and the high bytes of the length are made 0.
pub fn write_reference(out: &mut [u8], reference: &Reference)
    requires { length out.old ≡ 20 }
    ensures exact { out.new ≡ reference_bytes reference.now }
    ensures read { reference_in out.new ≡ reference.now }
{
    put_fields(
        out,
        reference.space,
        reference.page,
        reference.offset,
        reference.length,
    );
}

#[tactic(auto, unfolding(crate::specs::Reference::reference_bytes))]
fn put_fields(out: &mut [u8], space: u32, page: u32, offset: u32, size: u32)
    requires { length out.old ≡ 20 }
    ensures exact { out.new ≡ reference_bytes (record { space = space; page = page; offset = offset; length = size }) }
    ensures fits { FitsReference (record { space = space; page = page; offset = offset; length = size }) }
{
    BigEndian::write_u32_into(&[space, page, offset, 0, size], out);
}
