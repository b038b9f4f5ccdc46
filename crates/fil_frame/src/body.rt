//! The body of a page is made shorter, and keeps its CRC.
//!
//! x^209 + x^144 + x^54 + x^39 + x^14 + 1 is a multiple of the polynomial, and so is the same in
//! x^8 and in x^32, since squaring doubles each exponent. So the state stays the same where a byte
//! is cleared and added to the bytes that stand 65, 155, 170, 195 and 209 places behind it, or 4
//! times as many.

ghost use Rattle.std.specs.Prelude.{◌≡◌, ◌+◌, ◌*◌, ◌<◌, ◌≤◌, ◌^◌, length};
ghost use Rattle.fil_frame.specs.Crc.{crc_state, crc32c_of};
ghost use Rattle.fil_frame.specs.Sparse.{Cancel, exponents, remaining};

use crate::crc::{ALL_ONES, after_bytes};

/// The state after all ones and then as many bytes of zeros as the body of a page has.
const ONES_AFTER_BODY: u32 = 0xD272_5D08;

/// The CRC-32C of the body of a page.
pub fn body_sum(body: &[u8]) -> u32
    requires { length body.now ≡ 16338 }
    ensures { result ≡ crc32c_of body.now }
{
    let by_four = shorten::<4, 16914, 836>(body);
    let by_one = shorten::<1, 980, 209>(&by_four);
    after_bytes(0, &by_one) ^ ONES_AFTER_BODY ^ ALL_ONES
}

/// Bytes with the state of the body, from 0: its last `R` bytes, after each byte before them is
/// cleared and added to those behind it, at the scale `S`. The quotient takes `Q` bytes.
fn shorten<const S: usize, const Q: usize, const R: usize>(body: &[u8]) -> [u8; R]
    requires scale { 1 ≤ S }
    requires cancel { Cancel (exponents S) }
    requires rest { R ≡ 209 * S }
    requires long { R ≤ length body.now }
    requires room { Q ≡ length body.now + 144 * S }
    requires fits { Q < 2 ^ 63 }
    ensures { crc_state 0 result ≡ crc_state 0 body.now }
{
    let mut quotient = [0; Q];
    let mut rest = [0; R];
    let cleared = body.len() - R;
    for i in 0..cleared {
        quotient[i + R] = remaining::<S>(body, &quotient, i);
    }
    for i in 0..R {
        rest[i] = remaining::<S>(body, &quotient, cleared + i);
    }
    rest
}

/// What byte `i` of the body is once the bytes before it are cleared. Byte `j` of the quotient is
/// what was cleared at `j - 209 * S`.
fn remaining<const S: usize>(body: &[u8], quotient: &[u8], i: usize) -> u8
    requires inside { i < length body.now }
    requires room { length quotient.now ≡ length body.now + 144 * S }
    ensures { result ≡ remaining body.now quotient.now S i }
{
    body[i]
        ^ quotient[i + 144 * S]
        ^ quotient[i + 54 * S]
        ^ quotient[i + 39 * S]
        ^ quotient[i + 14 * S]
        ^ quotient[i]
}
