//! Vectors of 16 bytes of a text: where the first one lies that doesn't stand for itself.

ghost use Rattle.std.specs.Prelude.{◌≡◌, ◌≢◌, ◌↔◌, ℕ, ◌<◌, ◌≤◌, ◌==◌, if◌then◌else◌, length, take, slice_index};
ghost use Rattle.std.specs.Int.{bit_at};
ghost use Rattle.row_text.specs.Values.{escape_letter, IsPlain};
ghost use Rattle.row_text.specs.calls.Lanes.{HasLanes};

use std::simd::prelude::*;

/// How many bytes a vector has.
pub(crate) const LANES: usize = 16;

/// The vector `found`, and 255 where a byte of `lanes` is this one.
#[inline(always)]
fn marked(lanes: u8x16, byte: u8, found: u8x16) -> u8x16
    ensures { HasLanes result (λ k. if slice_index lanes k == byte then 255 else slice_index found k) }
{
    lanes
        .simd_eq(u8x16::splat(byte))
        .select(u8x16::splat(255), found)
}

/// 255 where a byte doesn't stand for itself.
#[inline(always)]
fn special(lanes: u8x16) -> u8x16
    ensures { (k : ℕ) → k < 16 → slice_index result k < 128 → escape_letter (slice_index lanes k) ≡ 0 }
{
    let found = marked(lanes, 0, u8x16::splat(0));
    let found = marked(lanes, b'\n', found);
    let found = marked(lanes, b'\r', found);
    let found = marked(lanes, b'\\', found);
    let found = marked(lanes, b'\'', found);
    let found = marked(lanes, b'"', found);
    marked(lanes, 0x1A, found)
}

/// The top bits of the lanes.
#[inline(always)]
fn top_bits(lanes: u8x16) -> u64
    ensures { (k : ℕ) → (bit_at result k ≡ 1) ↔ (128 ≤ slice_index lanes k) }
{
    lanes.simd_ge(u8x16::splat(128)).to_bitmask()
}

/// The lowest bit.
#[inline(always)]
fn lowest(bits: u64) -> usize
    requires { bits ≢ 0 }
    ensures bound { result < 64 }
    ensures set { bit_at bits result ≡ 1 }
    ensures below { (k : ℕ) → k < result → bit_at bits k ≡ 0 }
{
    bits.trailing_zeros() as usize
}

/// The bytes of a run.
#[inline(always)]
fn load(run: &[u8]) -> u8x16
    requires { length run.now ≡ 16 }
    ensures { HasLanes result (λ k. slice_index run.now k) }
{
    u8x16::from_slice(run)
}

/// How many bytes at the front of a run stand for themselves.
#[inline(always)]
pub(crate) fn plain_length(run: &[u8]) -> usize
    requires { length run.now ≡ 16 }
    ensures within { result ≤ 16 }
    ensures plain { IsPlain (take result run.now) }
{
    let bits = top_bits(special(load(run)));
    if bits == 0 {
        return LANES;
    }
    lowest(bits).min(LANES)
}
