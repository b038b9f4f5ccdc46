//! The LSNs of the pages that were put, by their numbers.

ghost use Rattle.std.specs.Prelude.{◌≡◌, ◌<◌, ◌↔◌, [], IsTrue, OnOk, MatchOption, Option, slice_index_or};
ghost use Rattle.image_carve.specs.Carved.{AreNumbersOf, known};
ghost use Rattle.image_carve.specs.Carving.{IsNewer, Notes, Grows, IsTally};

use crate::taken::Taken;
use page_source::NoMemory;
use std::alloc::Global;
use std::marker::Model;

/// An LSN, or none, for each number up to the greatest that was noted.
#[derive(Debug, Drop)]
pub(crate) struct NewestLsns {
    /// Which numbers have an LSN.
    marks: Vec<bool>,
    lsns: Vec<u64>,
}

impl Model for NewestLsns {
    ghost use Rattle.std.specs.Prelude.{ℕ, List, Option, length, ◌≤◌};
    ghost use Rattle.image_carve.specs.Carving.{marked};

    ghost Value = { List (Option ℕ) };

    ghost view = { λ newest. marked newest.marks.items newest.lsns.items };

    ghost invariant = { λ newest. (length newest.marks.items ≤ length newest.lsns.items)
        × (length newest.marks.items ≤ 4194304) };
}

impl NewestLsns {
    pub fn new(alloc: Global) -> NewestLsns
        ensures { result ≡ [] }
    {
        NewestLsns {
            marks: Vec::new(alloc),
            lsns: Vec::new(alloc),
        }
    }

    /// The LSN that is noted under the number.
    fn noted(&self, n: u32) -> Option<u64>
        ensures { result ≡ slice_index_or self.now n Option.None }
    {
        let place = n as usize;
        if place < self.marks.len() && self.marks[place] {
            return Some(self.lsns[place]);
        }
        None
    }

    /// Whether this LSN is greater than the one that is noted under the number, or none is.
    pub fn is_newer(&self, n: u32, lsn: u64) -> bool
        ensures { IsTrue result ↔ IsNewer self.now n lsn }
    {
        match self.noted(n) {
            Some(noted) => noted < lsn,
            None => true,
        }
    }

    /// Makes the list long enough for this number. After `NoMemory` nothing is said of it.
    fn grow(&mut self, n: u32) -> Result<(), NoMemory>
        requires { n < 4194304 }
        ensures { OnOk result (Grows self.old self.new n) }
    {
        let count = n as usize + 1;
        if self.marks.len() >= count {
            return Ok(());
        }
        self.lsns.resize(count, 0)?;
        self.marks.resize(count, false)?;
        Ok(())
    }

    /// Notes the LSN under the number. After `NoMemory` nothing is said of the list.
    pub fn note(&mut self, n: u32, lsn: u64) -> Result<(), NoMemory>
        requires { n < 4194304 }
        ensures { OnOk result (Notes self.old self.new n lsn) }
    {
        self.grow(n)?;
        self.marks[n as usize] = true;
        self.lsns[n as usize] = lsn;
        Ok(())
    }

    /// How many LSNs are there, and the greatest, or 0.
    fn tally(&self) -> (u32, u64)
        ensures { IsTally (known self.now) result.0 result.1 }
    {
        let mut pages = 0;
        let mut newest = 0_u64;
        for n in 0..self.marks.len() as u32 {
            let Some(lsn) = self.noted(n) else {
                continue;
            };
            pages += 1;
            newest = newest.max(lsn);
        }
        (pages, newest)
    }

    /// How many LSNs are there, and the greatest.
    pub fn taken(&self) -> Option<Taken>
        ensures { MatchOption result (known self.now ≡ []) (AreNumbersOf self.now) }
    {
        let (pages, newest) = self.tally();
        if pages == 0 {
            return None;
        }
        Some(Taken {
            pages,
            size: self.marks.len() as u32,
            newest,
        })
    }
}
