//! The words that the program was started with.

ghost use Rattle.std.specs.Prelude.{◌≤◌, IfOk, IfSome, vec_len};

use crate::words::Words;
use page_source::NoMemory;
use std::alloc::Global;
use std::env::{Env, FillError};

/// Most words fit here at once.
const WORD_BUFFER: usize = 4096;

/// The words behind the program's name, as bytes.
pub fn read_words<R: Env>(alloc: Global, rt: &R) -> Result<Words, NoMemory> {
    let mut words = Words::new(alloc);
    let mut buffer = Vec::from_elem(alloc, 0, WORD_BUFFER)?;
    for place in 1..usize::MAX {
        match read_word(rt, place, &mut buffer)? {
            Some(length) => words.push(&buffer[..length])?,
            None => break,
        }
    }
    Ok(words)
}

/// Reads a word into the front of the buffer, which grows as it has to, and answers its length.
fn read_word<R: Env>(rt: &R, place: usize, buffer: &mut Vec<u8>) -> Result<Option<usize>, NoMemory>
    ensures { IfOk result (λ word. IfSome word (λ length. length ≤ vec_len buffer.new)) }
{
    for _ in 0..u64::MAX {
        match rt.arg(place, buffer) {
            Ok(length) => return Ok(Some(length)),
            Err(FillError::NotPresent) => return Ok(None),
            Err(FillError::TooLong) => buffer.extend_from_slice(&[0; WORD_BUFFER])?,
        }
    }
    Err(NoMemory)
}
