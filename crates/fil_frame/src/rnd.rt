//! The fold of a list of bytes (ut0rnd), in numbers of 32 bits.

ghost use Rattle.std.specs.Prelude.{◌≡◌};
ghost use Rattle.fil_frame.specs.Fold.{fold_step, fold_of};

/// UT_HASH_RANDOM_MASK2, which a byte is mixed with first.
const FIRST_MASK: u32 = 1_653_893_711;

/// UT_HASH_RANDOM_MASK.
const SECOND_MASK: u32 = 1_463_735_687;

/// The fold of the bytes (ut_fold_binary), from 0 on.
pub fn fold(bytes: &[u8]) -> u32
    ensures { result ≡ fold_of bytes.now }
{
    let mut state = 0;
    for byte in bytes {
        state = after_byte(state, *byte);
    }
    state
}

/// The fold after one more byte.
fn after_byte(state: u32, byte: u8) -> u32
    ensures { result ≡ fold_step state byte }
{
    let byte = u32::from(byte);
    let mixed = (state ^ byte ^ FIRST_MASK)
        .wrapping_mul(256)
        .wrapping_add(state);
    (mixed ^ SECOND_MASK).wrapping_add(byte)
}
