//! The lines of rows that a case builds from, of which many may be made of one.

use crate::error::LineError;
use crate::text::{decode, put_number};
use crate::words::{Range, number};
use page_source::{ByteList, NoMemory};
use std::alloc::Global;

/// The most lines that one line stands for.
const MOST: u64 = 1_000_000;

/// A line that stands for many: the texts between which its number stands.
#[derive(Drop)]
struct MadeLine {
    texts: Vec<ByteList>,
}

impl MadeLine {
    /// Reads the spelling of a line, without its line feed; `\i` is its number.
    fn read(alloc: Global, line: &str) -> Result<MadeLine, LineError> {
        let mut texts = Vec::new(alloc);
        for text in line.split("\\i") {
            texts.push(decode(alloc, text)?)?;
        }
        Ok(MadeLine { texts })
    }

    /// Adds the line with this number.
    fn put(&self, rows: &mut ByteList, number: u64) -> Result<(), NoMemory> {
        let mut is_first = true;
        for text in &self.texts {
            if !is_first {
                put_number(rows, number)?;
            }
            rows.extend(text.bytes())?;
            is_first = false;
        }
        rows.push(b'\n')
    }
}

/// The text of rows that is spelled so: as other texts are, but `\[1-722]` makes the line behind it stand once for each
/// of the numbers, and `\[1-5000/100]` the next two lines, the second where 100 divides the number.
pub fn rows_of(alloc: Global, text: &str) -> Result<ByteList, LineError> {
    let mut rows = ByteList::new(alloc);
    let mut is_made = false;
    for part in text.split("\\[") {
        let plain = if is_made {
            push_made(alloc, &mut rows, part)?
        } else {
            part
        };
        rows.extend(decode(alloc, plain)?.bytes())?;
        is_made = true;
    }
    Ok(rows)
}

/// Adds the lines that are made, and answers what stands behind them.
fn push_made<'a>(alloc: Global, rows: &mut ByteList, part: &'a str) -> Result<&'a str, LineError> {
    let (numbers, lines) = part.split_once(']').ok_or(LineError::Word)?;
    let (numbers, every) = match numbers.split_once('/') {
        Some((numbers, every)) => (numbers, number(every)?),
        None => (numbers, 0),
    };
    let numbers = Range::read(numbers)?;
    let (line, rest) = lines.split_once("\\n").ok_or(LineError::Word)?;
    let line = MadeLine::read(alloc, line)?;
    if every == 0 {
        push_lines(rows, numbers, 0, &line, &line)?;
        return Ok(rest);
    }
    let (other, rest) = rest.split_once("\\n").ok_or(LineError::Word)?;
    push_lines(rows, numbers, every, &line, &MadeLine::read(alloc, other)?)?;
    Ok(rest)
}

/// Adds a line for each of the numbers: the other one where `every` divides the number.
fn push_lines(
    rows: &mut ByteList,
    numbers: Range,
    every: u64,
    line: &MadeLine,
    other: &MadeLine,
) -> Result<(), LineError> {
    if numbers.last.saturating_sub(numbers.first) > MOST {
        return Err(LineError::Number);
    }
    for number in numbers.first..numbers.last.saturating_add(1) {
        if every != 0 && number % every == 0 {
            other.put(rows, number)?;
        } else {
            line.put(rows, number)?;
        }
    }
    Ok(())
}
