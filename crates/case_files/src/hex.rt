//! The bytes that an edit puts: parts in hexadecimal digits, or texts between quotes, each as often as is said.

use crate::error::LineError;
use crate::text::{decode, hex_byte};
use page_source::ByteList;
use std::alloc::Global;

/// The most times that a part may stand.
const MOST: usize = 1_000_000;

/// The bytes of `0000+'infimum'+FF*16`.
pub fn bytes_of(alloc: Global, word: &str) -> Result<ByteList, LineError> {
    let mut bytes = ByteList::new(alloc);
    if word.is_empty() {
        return Ok(bytes);
    }
    // A quote divides the word: every second piece of it stands between two of them.
    let mut is_text = false;
    let mut held = ByteList::new(alloc);
    for piece in word.split('\'') {
        if is_text {
            held = decode(alloc, piece)?;
        } else {
            push_pieces(alloc, &mut bytes, &held, piece)?;
            held = ByteList::new(alloc);
        }
        is_text = !is_text;
    }
    if !is_text {
        return Err(LineError::Bytes);
    }
    Ok(bytes)
}

/// Adds what stands outside of quotes, behind a text that stood between them: how often that stands, and parts in
/// digits.
fn push_pieces(
    alloc: Global,
    bytes: &mut ByteList,
    text: &ByteList,
    piece: &str,
) -> Result<(), LineError> {
    let mut is_first = true;
    for part in piece.split('+') {
        let (digits, times) = part.split_once('*').unwrap_or((part, "1"));
        let times = times.parse::<usize>().map_err(|_| LineError::Bytes)?;
        if is_first {
            if !text.bytes().is_empty() && !digits.is_empty() {
                return Err(LineError::Bytes);
            }
            repeat(bytes, text.bytes(), times)?;
        }
        repeat(bytes, digits_of(alloc, digits)?.bytes(), times)?;
        is_first = false;
    }
    Ok(())
}

/// Adds the bytes so many times.
fn repeat(bytes: &mut ByteList, part: &[u8], times: usize) -> Result<(), LineError> {
    if times > MOST {
        return Err(LineError::Bytes);
    }
    for _ in 0..times {
        bytes.extend(part)?;
    }
    Ok(())
}

/// The bytes of hexadecimal digits, two a byte.
fn digits_of(alloc: Global, digits: &str) -> Result<ByteList, LineError> {
    let mut bytes = ByteList::new(alloc);
    for pair in digits.as_bytes().chunks(2) {
        match pair {
            [high, low] => bytes.push(hex_byte(*high, *low).ok_or(LineError::Bytes)?)?,
            _ => return Err(LineError::Bytes),
        }
    }
    Ok(bytes)
}
