//! CRC-32C, with Castagnoli's polynomial (ut0crc32), by tables.

ghost use Rattle.std.specs.Prelude.{◌≡◌, ◌%◌, [], ◌∷◌, length};
ghost use Rattle.fil_frame.specs.Crc.{crc_state, crc32c_of};
ghost use Rattle.fil_frame.specs.Sparse.{zero_bytes};

use crate::tables::{TABLE_0, TABLE_1, TABLE_2, TABLE_3, TABLE_4, TABLE_5, TABLE_6, TABLE_7};

/// The state before the first bit, and what the last state is exclusive-ored with.
pub const ALL_ONES: u32 = 0xFFFF_FFFF;

/// How many bytes are looked up at a time.
const GROUP: usize = 8;

/// The CRC-32C of the bytes, from all ones on, with the bits of the last state turned (ut_crc32).
pub fn crc32c(bytes: &[u8]) -> u32
    ensures { result ≡ crc32c_of bytes.now }
{
    after_bytes(ALL_ONES, bytes) ^ ALL_ONES
}

/// The state after these bytes: whole groups of eight go by the eight tables, the rest by the first.
pub fn after_bytes(start: u32, bytes: &[u8]) -> u32
    ensures { result ≡ crc_state start bytes.now }
{
    let whole = bytes.len() / GROUP * GROUP;
    after_rest(after_groups(start, &bytes[..whole]), &bytes[whole..])
}

/// The state after these whole groups.
fn after_groups(start: u32, bytes: &[u8]) -> u32
    requires { length bytes.now % GROUP ≡ 0 }
    ensures { result ≡ crc_state start bytes.now }
{
    let mut state = start;
    for g in 0..bytes.len() / GROUP {
        state = after_group(state, &bytes[GROUP * g..GROUP * g + GROUP]);
    }
    state
}

/// The state after a group.
fn after_group(state: u32, group: &[u8]) -> u32
    requires { length group.now ≡ GROUP }
    ensures { result ≡ crc_state state group.now }
{
    let bytes = [
        group[0], group[1], group[2], group[3], group[4], group[5], group[6], group[7],
    ];
    after_zeros(u64::from(state) ^ u64::from_le_bytes(bytes))
}

/// The state after eight bytes of zeros, from this state of 64 bits.
fn after_zeros(word: u64) -> u32
    ensures { result ≡ zero_bytes 8 word }
{
    macro_rules! look_up {
        ($first:ident at $low:literal, $($table:ident at $place:literal),+) => {
            $first[((word >> $low) % 256) as usize]
                $(^ $table[((word >> $place) % 256) as usize])+
        };
    }
    look_up!(
        TABLE_7 at 0, TABLE_6 at 8, TABLE_5 at 16, TABLE_4 at 24,
        TABLE_3 at 32, TABLE_2 at 40, TABLE_1 at 48, TABLE_0 at 56
    )
}

/// The state after these bytes, one by one.
fn after_rest(start: u32, bytes: &[u8]) -> u32
    ensures { result ≡ crc_state start bytes.now }
{
    let mut state = start;
    for byte in bytes {
        state = after_byte(state, *byte);
    }
    state
}

/// The state after a byte.
fn after_byte(state: u32, byte: u8) -> u32
    ensures { result ≡ crc_state state (byte ∷ []) }
{
    TABLE_0[(state % 256 ^ u32::from(byte)) as usize] ^ (state >> 8)
}
