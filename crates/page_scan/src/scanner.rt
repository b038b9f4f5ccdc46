//! The pages of an image in the order in which they stand.

ghost use Rattle.std.specs.Prelude.{◌≡◌, ◌<◌, ◌≤◌, [], length, true, false, IfOk, IfSome, Ok, None};
ghost use Rattle.page_source.specs.Faults.{HasCause};
ghost use Rattle.page_scan.specs.Found.{IsPageOf};
ghost use Rattle.page_scan.specs.Scan.{ScansTold, IsReadOut, rest_of};
ghost use Rattle.page_scan.specs.Window.{HasNothingLeft, Looks};

use crate::window::{pass_sectors, read_on};
use page_source::{ByteSource, Failed, NoMemory, PAGE_SIZE, Page};
use std::alloc::Global;
use std::marker::Model;

/// The bytes of a window, a mebibyte more than a page.
const WINDOW: usize = 1_064_960;

/// A page that was found: the space that it names, and its number.
#[derive(Clone, Copy, Debug, PartialEq, Eq)]
pub struct FoundPage {
    pub space: u32,
    pub number: u32,
}

/// A window over an image, seen as what was read of it from the next sector on.
#[derive(Debug, Drop)]
pub struct Scanner {
    window: Vec<u8>,
    from: usize,
    to: usize,
}

impl Model for Scanner {
    ghost use Rattle.std.specs.Prelude.{◌≡◌, ◌≤◌, List, ℕ, slice_range, length};

    ghost Value = { List ℕ };

    ghost view = { λ scanner. slice_range scanner.window.items scanner.from scanner.to };

    ghost invariant = { λ scanner.
        (scanner.from ≤ scanner.to) × (scanner.to ≤ length scanner.window.items)
        × (length scanner.window.items ≡ 1064960) };
}

impl Scanner {
    /// A window before the first sector of an image. It takes all its memory here.
    pub fn new(alloc: Global) -> Result<Scanner, NoMemory>
        ensures { IfOk result (λ scanner. scanner ≡ []) }
    {
        Ok(Scanner {
            window: Vec::from_elem(alloc, 0, WINDOW)?,
            from: 0,
            to: 0,
        })
    }

    /// Finds the next page that stands by itself, at the beginning of whatever sector, and copies it. The sectors that
    /// it spans are looked at again, so pages that overlap are all found. At the end of the image, and after `Failed`,
    /// nothing is said of the page.
    pub fn next<Q: ByteSource>(
        &mut self,
        source: &mut Q,
        page: &mut Page,
    ) -> Result<Option<FoundPage>, Failed>
        ensures scans { ScansTold (rest_of self.old (Q.left source.old)) result page.new
            (rest_of self.new (Q.left source.new)) }
        ensures ended { result ≡ Ok None → IsReadOut (rest_of self.old (Q.left source.old)) (Q.left source.new) }
        ensures stands { IfOk result (λ found. IfSome found (λ met. IsPageOf page.new met.space met.number)) }
        ensures cause { HasCause (Q.faults source.old) (Q.faults source.new) result }
    {
        for _turn in 0..u64::MAX {
            if !self.refill(source)? {
                return Ok(None);
            }
            let found = self.look(page);
            if found.is_some() {
                return Ok(found);
            }
        }
        Ok(None)
    }

    /// Looks at the sectors of which a whole page is ahead, until one is found, and passes them.
    fn look(&mut self, page: &mut Page) -> Option<FoundPage>
        ensures { Looks self.old self.new result page.new }
    {
        let passed = pass_sectors(&self.window[self.from..self.to], page);
        self.from += passed.bytes;
        passed.found
    }

    /// Whether a whole page is ahead, after more was read if none was. What is ahead and what is left stay the rest.
    fn refill<Q: ByteSource>(&mut self, source: &mut Q) -> Result<bool, Failed>
        ensures rest { rest_of self.new (Q.left source.new) ≡ rest_of self.old (Q.left source.old) }
        ensures whole { result ≡ Ok true → 16384 ≤ length self.new }
        ensures ended { result ≡ Ok false → length self.new < 16384 }
        ensures left { result ≡ Ok false → HasNothingLeft (Q.left source.old) (Q.left source.new) }
        ensures cause { HasCause (Q.faults source.old) (Q.faults source.new) result }
    {
        if self.to - self.from >= PAGE_SIZE {
            return Ok(true);
        }
        self.window.copy_within(self.from..self.to, 0);
        self.to -= self.from;
        self.from = 0;
        read_on(source, &mut self.window, &mut self.to)?;
        Ok(self.to >= PAGE_SIZE)
    }
}
