//! Pages of a file that can't be read.

use crate::error::LineError;
use crate::words::{Range, page_number};
use page_source::NoMemory;
use std::alloc::Global;

/// A page of which some fetches fail, by their numbers among all fetches of it, and how many there were.
#[derive(Clone, Copy)]
struct BadPage {
    number: u32,
    failing: Range,
    asked: u64,
}

impl BadPage {
    /// `4`, or `7@2-3`.
    fn read(word: &str) -> Result<BadPage, LineError> {
        let (number, failing) = match word.split_once('@') {
            Some((number, fetches)) => (number, Range::read(fetches)?),
            None => (word, Range::ALL),
        };
        Ok(BadPage {
            number: page_number(number)?,
            failing,
            asked: 0,
        })
    }
}

/// The pages that can't be read.
#[derive(Drop)]
pub struct Unread {
    pages: Vec<BadPage>,
}

impl Unread {
    /// No page of which fetches fail.
    pub fn none(alloc: Global) -> Unread {
        Unread {
            pages: Vec::new(alloc),
        }
    }

    /// The pages of `4,6@1,7@2-3`: each fetch of page 4 fails, the first one of page 6, and the second and the third of
    /// page 7.
    pub fn read(alloc: Global, word: &str) -> Result<Unread, LineError> {
        let mut unread = Unread::none(alloc);
        for part in word.split(',') {
            unread.pages.push(BadPage::read(part)?)?;
        }
        Ok(unread)
    }

    /// A copy of these pages.
    pub fn copied(&self, alloc: Global) -> Result<Unread, NoMemory> {
        let mut unread = Unread::none(alloc);
        for page in &self.pages {
            unread.pages.push(*page)?;
        }
        Ok(unread)
    }

    /// Counts a fetch of the page with this number, and answers whether it fails.
    pub fn has_failing(&mut self, number: u32) -> bool {
        let mut is_failing = false;
        for page in self.pages.iter_mut() {
            if page.number == number {
                page.asked = page.asked.saturating_add(1);
                is_failing = is_failing || page.failing.has(page.asked);
            }
        }
        is_failing
    }
}
