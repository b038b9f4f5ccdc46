//! The characters at the front of a block of bytes, by comparisons of each byte with the three before it.

ghost use Rattle.std.specs.Prelude.{◌≡◌, ◌≤◌, ◌<◌, ℕ, length, count_by, slice_index, suc, IsTrue, IfSome};
ghost use Rattle.column_values.specs.Utf8Blocks.{MayFollow, FollowsAt, AllFollow, EndsAt, HasFront, behind_zeros};
ghost use Rattle.column_values.specs.Utf8Blocks.{is_start};

/// How many bytes of a block have three bytes of it before them.
const WIDTH: usize = 192;

/// How many bytes of a text are looked at together.
pub(crate) const BLOCK: usize = WIDTH + 3;

/// 0 where the byte may follow the three before it. By comparisons alone, so that a compiler can make it of many bytes
/// at once.
fn fault(x: u8, y: u8, z: u8, byte: u8) -> u8
    ensures { result ≡ 0 → MayFollow x y z byte }
{
    let goes_on = (z >= 0xC2) | (y >= 0xE0) | (x >= 0xF0);
    let further = (byte >= 0x80) & (byte <= 0xBF);
    let wrong = (goes_on != further)
        | ((z == 0xE0) & (byte < 0xA0))
        | ((z == 0xF0) & (byte < 0x90))
        | ((z == 0xF4) & (byte > 0x8F))
        | (byte == 0xC0)
        | (byte == 0xC1)
        | (byte > 0xF4);
    wrong as u8
}

/// Whether the first three bytes may follow one another, where a character begins with the first one.
fn is_good_start(block: &[u8]) -> bool
    requires { 3 ≤ length block.now }
    ensures { IsTrue result → (i : ℕ) → i < 3 → FollowsAt (behind_zeros block.now) i }
{
    let (a, b, c) = (block[0], block[1], block[2]);
    fault(0, 0, 0, a)
        .max(fault(0, 0, a, b))
        .max(fault(0, a, b, c))
        == 0
}

/// Whether each other byte of a block may follow the three before it. All are looked at, without a way out at the first
/// that may not, so that a compiler makes wide vectors of the loop.
fn is_good_behind(block: &[u8]) -> bool
    requires { length block.now ≡ 195 }
    ensures { IsTrue result → (i : ℕ) → i < 192 → FollowsAt block.now i }
{
    let mut found = 0u8;
    for i in 0..WIDTH {
        found = found.max(fault(block[i], block[i + 1], block[i + 2], block[i + 3]));
    }
    found == 0
}

/// Whether each byte of a block may follow the three before it.
fn is_good(block: &[u8]) -> bool
    requires { length block.now ≡ 195 }
    ensures { IsTrue result → AllFollow block.now }
{
    is_good_start(block) && is_good_behind(block)
}

/// Where the last character of a block begins that isn't whole in it; or the end of the block.
fn last_end(block: &[u8]) -> usize
    requires { length block.now ≡ 195 }
    ensures least { 192 ≤ result }
    ensures end { EndsAt block.now result }
{
    if block[194] >= 0xC2 {
        194
    } else if block[193] >= 0xE0 {
        193
    } else if block[192] >= 0xF0 {
        192
    } else {
        195
    }
}

/// Whether a character begins with the byte.
fn is_start(byte: u8) -> bool
    ensures { result ≡ is_start byte }
{
    (byte < 0x80) | (byte >= 0xC0)
}

/// How many characters begin in the bytes.
fn starts(bytes: &[u8]) -> u8
    requires { length bytes.now ≤ 195 }
    ensures { result ≡ count_by is_start bytes.now }
{
    let mut count = 0u8;
    for i in 0..bytes.len() {
        count += is_start(bytes[i]) as u8;
    }
    count
}

/// How many bytes at the front of a block are whole characters, and how many characters; none where they aren't a text.
pub(crate) fn front_of(block: &[u8]) -> Option<(usize, u64)>
    requires { length block.now ≡ 195 }
    ensures { IfSome result (λ front. HasFront block.now front.0 front.1) }
{
    if !is_good(block) {
        return None;
    }
    let (front, _) = block.split_at(last_end(block));
    Some((front.len(), u64::from(starts(front))))
}
