//! The words of a line, one after another, and the numbers among them.

use crate::error::LineError;
use std::alloc::Global;

/// The words of a text, which single spaces divide, and how many of them were taken.
#[derive(Drop)]
pub struct Words<'a> {
    words: Vec<&'a str>,
    taken: usize,
}

impl<'a> Words<'a> {
    /// The words of this text; none of an empty one.
    pub fn of(alloc: Global, text: &'a str) -> Result<Words<'a>, LineError> {
        let mut words = Vec::new(alloc);
        if !text.is_empty() {
            for word in text.split(' ') {
                words.push(word)?;
            }
        }
        Ok(Words { words, taken: 0 })
    }

    /// How many words are left.
    pub fn left(&self) -> usize {
        self.words.len().saturating_sub(self.taken)
    }

    /// The word that stands next, which stays.
    pub fn peek(&self) -> Option<&'a str> {
        self.words.get(self.taken).copied()
    }

    /// Takes the word that stands next.
    pub fn next(&mut self) -> Result<&'a str, LineError> {
        let word = self.peek().ok_or(LineError::Word)?;
        self.taken = self.taken.saturating_add(1);
        Ok(word)
    }

    /// Takes the next word where it is this one, and answers whether it was.
    pub fn skip(&mut self, word: &str) -> bool {
        let is_next = self.peek() == Some(word);
        if is_next {
            self.taken = self.taken.saturating_add(1);
        }
        is_next
    }

    /// Takes a number in decimal digits.
    pub fn number(&mut self) -> Result<u64, LineError> {
        number(self.next()?)
    }

    /// Takes a range of numbers.
    pub fn range(&mut self) -> Result<Range, LineError> {
        Range::read(self.next()?)
    }

    /// Fails where a word is left.
    pub fn end(&self) -> Result<(), LineError> {
        if self.left() == 0 {
            Ok(())
        } else {
            Err(LineError::Word)
        }
    }
}

/// The number in decimal digits.
pub fn number(word: &str) -> Result<u64, LineError> {
    word.parse::<u64>().map_err(|_| LineError::Number)
}

/// A page number.
pub fn page_number(word: &str) -> Result<u32, LineError> {
    word.parse::<u32>().map_err(|_| LineError::Number)
}

/// The numbers from the first to the last.
#[derive(Clone, Copy)]
pub struct Range {
    pub first: u64,
    pub last: u64,
}

impl Range {
    /// Every number.
    pub const ALL: Range = Range {
        first: 0,
        last: u64::MAX,
    };

    /// `3-7`, or `3` alone.
    pub fn read(word: &str) -> Result<Range, LineError> {
        let (first, last) = word.split_once('-').unwrap_or((word, word));
        let range = Range {
            first: number(first)?,
            last: number(last)?,
        };
        if range.first > range.last {
            return Err(LineError::Number);
        }
        Ok(range)
    }

    pub fn has(&self, number: u64) -> bool {
        self.first <= number && number <= self.last
    }
}

/// Ranges with commas between, or `*` for every number.
pub fn ranges(alloc: Global, word: &str) -> Result<Vec<Range>, LineError> {
    let mut list = Vec::new(alloc);
    if word == "*" {
        list.push(Range::ALL)?;
        return Ok(list);
    }
    for part in word.split(',') {
        list.push(Range::read(part)?)?;
    }
    Ok(list)
}

/// Whether one of the ranges has the number.
pub fn any_has(list: &[Range], number: u64) -> bool {
    list.iter().any(|range| range.has(number))
}
