//! Which bytes stand behind a backslash, and by which letter.

ghost use Rattle.std.specs.Prelude.{◌≡◌, ◌≤◌, ◌==◌, if◌then◌else◌, MatchOption};
ghost use Rattle.row_text.specs.Values.{is_escaped, escape_letter};

/// The letter of each byte's escape, 0 where the byte stands for itself.
pub static LETTERS: [u8; 256] = [
    48, 0, 0, 0, 0, 0, 0, 0, 0, 0, 110, 0, 0, 114, 0, 0, 0, 0, 0, 0, 0, 0, 0, 0, 0, 0, 90, 0, 0, 0,
    0, 0, 0, 0, 34, 0, 0, 0, 0, 39, 0, 0, 0, 0, 0, 0, 0, 0, 0, 0, 0, 0, 0, 0, 0, 0, 0, 0, 0, 0, 0,
    0, 0, 0, 0, 0, 0, 0, 0, 0, 0, 0, 0, 0, 0, 0, 0, 0, 0, 0, 0, 0, 0, 0, 0, 0, 0, 0, 0, 0, 0, 0,
    92, 0, 0, 0, 0, 0, 0, 0, 0, 0, 0, 0, 0, 0, 0, 0, 0, 0, 0, 0, 0, 0, 0, 0, 0, 0, 0, 0, 0, 0, 0,
    0, 0, 0, 0, 0, 0, 0, 0, 0, 0, 0, 0, 0, 0, 0, 0, 0, 0, 0, 0, 0, 0, 0, 0, 0, 0, 0, 0, 0, 0, 0, 0,
    0, 0, 0, 0, 0, 0, 0, 0, 0, 0, 0, 0, 0, 0, 0, 0, 0, 0, 0, 0, 0, 0, 0, 0, 0, 0, 0, 0, 0, 0, 0, 0,
    0, 0, 0, 0, 0, 0, 0, 0, 0, 0, 0, 0, 0, 0, 0, 0, 0, 0, 0, 0, 0, 0, 0, 0, 0, 0, 0, 0, 0, 0, 0, 0,
    0, 0, 0, 0, 0, 0, 0, 0, 0, 0, 0, 0, 0, 0, 0, 0, 0, 0, 0, 0, 0, 0, 0, 0, 0, 0, 0, 0, 0, 0, 0, 0,
    0, 0, 0, 0, 0,
];

/// The letter that stands for a byte behind a backslash; none where the byte stands for itself.
pub(crate) fn escape_letter(byte: u8) -> Option<u8>
    ensures { MatchOption result (escape_letter byte ≡ 0)
        (λ letter. (letter ≡ escape_letter byte) × (1 ≤ letter)) }
{
    match byte {
        0 => Some(b'0'),
        b'\n' => Some(b'n'),
        b'\r' => Some(b'r'),
        0x1A => Some(b'Z'),
        b'\\' | b'\'' | b'"' => Some(byte),
        _ => None,
    }
}

/// The letter of a byte's escape, 0 where it stands for itself.
pub(crate) fn letter_of(byte: u8) -> u8
    ensures { result ≡ escape_letter byte }
{
    LETTERS[usize::from(byte)]
}

/// Whether the byte stands behind a backslash.
pub(crate) fn is_escaped(byte: u8) -> bool
    ensures { result ≡ is_escaped byte }
{
    letter_of(byte) != 0
}

/// Whether a byte is escaped, by comparisons alone, so that a compiler can make it of many bytes at once.
pub(crate) fn is_special(byte: u8) -> bool
    ensures { result ≡ is_escaped byte }
{
    (byte == 0)
        | (byte == b'\n')
        | (byte == b'\r')
        | (byte == 0x1A)
        | (byte == b'"')
        | (byte == b'\'')
        | (byte == b'\\')
}

/// The byte that an escape begins with, or the byte itself where it has no letter.
pub(crate) fn front_of(byte: u8, letter: u8) -> u8
    ensures { result ≡ (if letter == 0 then byte else 92) }
{
    if letter == 0 { byte } else { b'\\' }
}

/// How many bytes stand for a byte with this letter.
pub(crate) fn width_of(letter: u8) -> usize
    ensures value { result ≡ (if letter == 0 then 1 else 2) }
    ensures few { result ≤ 2 }
{
    if letter == 0 { 1 } else { 2 }
}
