//! Texts as a line spells them: printable bytes as themselves, the others by escapes.

use crate::error::LineError;
use page_source::{ByteList, NoMemory};
use std::alloc::Global;

/// The most bytes that an escape may repeat.
const MOST: usize = 17_000_000;

/// How many bytes are added at a time.
const BLOCK: usize = 256;

/// The bytes that a text spells: `\n` is a line feed, `\\` a backslash, `\xHH` any byte, and `\{N}` behind a byte makes
/// it stand N times.
pub fn decode(alloc: Global, text: &str) -> Result<ByteList, LineError> {
    let mut bytes = ByteList::new(alloc);
    // A backslash divides the text; the part behind it begins with what it escapes.
    let mut is_plain = true;
    for part in text.split('\\') {
        if is_plain {
            bytes.extend(part.as_bytes())?;
            is_plain = false;
        } else if part.is_empty() {
            bytes.push(b'\\')?;
            is_plain = true;
        } else {
            push_escaped(&mut bytes, part.as_bytes())?;
        }
    }
    if is_plain {
        return Err(LineError::Escape);
    }
    Ok(bytes)
}

/// Adds what the part behind a backslash spells.
fn push_escaped(bytes: &mut ByteList, part: &[u8]) -> Result<(), LineError> {
    match part {
        [b'n', rest @ ..] => {
            bytes.push(b'\n')?;
            bytes.extend(rest)?;
        }
        [b'x', high, low, rest @ ..] => {
            let byte = hex_byte(*high, *low).ok_or(LineError::Escape)?;
            bytes.push(byte)?;
            bytes.extend(rest)?;
        }
        [b'{', rest @ ..] => {
            let end = rest.iter().position(|byte| *byte == b'}');
            let (times, rest) = rest
                .split_at_checked(end.ok_or(LineError::Escape)?)
                .ok_or(LineError::Escape)?;
            repeat_last(bytes, times)?;
            bytes.extend(rest.get(1..).unwrap_or_default())?;
        }
        _ => return Err(LineError::Escape),
    }
    Ok(())
}

/// Makes the last byte stand so many times, in decimal digits.
fn repeat_last(bytes: &mut ByteList, times: &[u8]) -> Result<(), LineError> {
    let last = *bytes.bytes().last().ok_or(LineError::Escape)?;
    let times = str::from_utf8(times)
        .ok()
        .and_then(|digits| digits.parse::<usize>().ok())
        .ok_or(LineError::Escape)?;
    if times == 0 || times > MOST {
        return Err(LineError::Escape);
    }
    let block = [last; BLOCK];
    let more = times - 1;
    for _ in 0..more / BLOCK {
        bytes.extend(&block)?;
    }
    bytes.extend(&block[..more % BLOCK])?;
    Ok(())
}

/// The byte that two hexadecimal digits spell.
pub fn hex_byte(high: u8, low: u8) -> Option<u8> {
    Some(hex_digit(high)? << 4 | hex_digit(low)?)
}

fn hex_digit(digit: u8) -> Option<u8> {
    match digit {
        b'0'..=b'9' => Some(digit - b'0'),
        b'a'..=b'f' => Some(digit - b'a' + 10),
        b'A'..=b'F' => Some(digit - b'A' + 10),
        _ => None,
    }
}

/// Adds the spelling of these bytes.
pub fn encode(text: &mut ByteList, bytes: &[u8]) -> Result<(), NoMemory> {
    for byte in bytes {
        match *byte {
            b'\n' => text.extend(b"\\n")?,
            b'\\' => text.extend(b"\\\\")?,
            b' '..=b'~' => text.push(*byte)?,
            other => {
                text.extend(b"\\x")?;
                text.extend(&[digit_of(other >> 4), digit_of(other & 15)])?;
            }
        }
    }
    Ok(())
}

/// The hexadecimal digit of a number below 16.
fn digit_of(number: u8) -> u8 {
    match number {
        0..=9 => b'0' + number,
        10..=15 => b'A' + (number - 10),
        _ => b'?',
    }
}

/// Adds a number in decimal digits.
pub fn put_number(text: &mut ByteList, number: u64) -> Result<(), NoMemory> {
    text.extend(itoa::Buffer::new().format(number).as_bytes())
}

/// Adds a number of 32 bits in eight hexadecimal digits of lower case.
pub fn put_hex(text: &mut ByteList, number: u32) -> Result<(), NoMemory> {
    for byte in number.to_be_bytes() {
        for digit in [digit_of(byte >> 4), digit_of(byte & 15)] {
            text.push(digit.to_ascii_lowercase())?;
        }
    }
    Ok(())
}
