//! Words, names and numbers of a line.

ghost use Rattle.std.specs.Prelude.{◌≡◌, ◌<◌, ◌^◌, ◌↔◌, ◌==◌, ◌∷◌, ◌++◌, List, ℕ, IsTrue, IfSome};
ghost use Rattle.std.specs.Prelude.{IsSomeAnd, MatchOption, Some, decimal, position, bytes_eq};
ghost use Rattle.schema_text.specs.Grammar.{IsName, IsNameByte, IsRoot};
ghost use Rattle.schema_text.specs.Cuts.{Lacks, Parses};

use itoa::Buffer;
use std::str;

const LONGEST_NAME: usize = 64;

/// The first page that may be a root: the three before it are the tablespace's own.
pub const FIRST_ROOT: u32 = 3;

const LAST_ROOT: u32 = 4_194_303;

/// Whether the word is this one.
pub(crate) fn is(word: &[u8], text: &[u8]) -> bool
    ensures value { result ≡ bytes_eq word.now text.now }
    ensures same { IsTrue result ↔ (word.now ≡ text.now) }
{
    word == text
}

/// The place of the first byte of a text that is this one.
fn first_place(text: &[u8], byte: u8) -> Option<usize>
    ensures { result ≡ position (λ b. b == byte) text.now }
{
    text.iter().position(|b| *b == byte)
}

/// What stands before the first byte of a text that is this one, and what follows it.
pub(crate) fn cut(text: &[u8], byte: u8) -> Option<(&[u8], &[u8])>
    ensures found { IfSome result (λ parts. text.now ≡ parts.0.now ++ byte ∷ parts.1.now) }
    ensures first { MatchOption result (Lacks byte text.now) (λ parts. Lacks byte parts.0.now) }
    ensures only { (first rest : List ℕ) → Lacks byte first → text.now ≡ first ++ byte ∷ rest
        → IsSomeAnd result (λ parts. (parts.0.now ≡ first) × (parts.1.now ≡ rest)) }
{
    let at = first_place(text, byte)?;
    Some((&text[..at], &text[at + 1..]))
}

/// Whether the byte may stand in a name: `A-Z a-z 0-9 _ $`.
fn is_name_byte(byte: u8) -> bool
    ensures { IsTrue result ↔ IsNameByte byte }
{
    matches!(byte, b'A'..=b'Z' | b'a'..=b'z' | b'0'..=b'9' | b'_' | b'$')
}

/// Whether these bytes are a name.
pub(crate) fn is_name(word: &[u8]) -> bool
    ensures { IsTrue result ↔ IsName word.now }
{
    !word.is_empty() && word.len() <= LONGEST_NAME && word.iter().all(|b| is_name_byte(*b))
}

/// Whether the word is the number, in decimal without leading zeros.
fn is_decimal(word: &[u8], number: u32) -> bool
    ensures { IsTrue result ↔ (word.now ≡ decimal number) }
{
    Buffer::new().format(number).as_bytes() == word
}

/// The number that the word spells, in decimal without leading zeros; none for any other word, and
/// for numbers of 2^32 and up.
pub fn decimal_number(word: &[u8]) -> Option<u32>
    ensures found { IfSome result (λ n. word.now ≡ decimal n) }
    ensures only { (n : ℕ) → n < 2 ^ 32 → word.now ≡ decimal n → result ≡ Some n }
{
    let number: u32 = str::from_utf8(word).ok()?.parse().ok()?;
    is_decimal(word, number).then_some(number)
}

/// The number of a root page.
pub(crate) fn root_number(word: &[u8]) -> Option<u32>
    ensures { Parses (λ root. IsRoot root × (word.now ≡ decimal root)) result }
{
    let root = decimal_number(word)?;
    (FIRST_ROOT <= root && root <= LAST_ROOT).then_some(root)
}
