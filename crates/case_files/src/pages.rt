//! The file of a case, as a file of pages.

ghost use Rattle.std.specs.Prelude.{◌≡◌, ◌+◌, ℕ, None};
ghost use Rattle.page_source.specs.Faults.{HasCause, AsksOne};

use crate::edited_pages::EditedPages;
use crate::unread::Unread;
use page_source::{Failed, Page, PageSource, Steps};
use std::alloc::Global;
use std::marker::Model;
use std::sync::ledger::Ledger;

/// The pages of a file that aren't zeros: those of the edited ones, and where none is, those under them.
#[derive(Clone, Copy)]
pub struct Image<'a> {
    pub over: &'a EditedPages,
    pub under: &'a EditedPages,
    /// How many whole pages the file has.
    pub pages: u32,
}

impl Image<'_> {
    /// Makes the page that of the file, where it has one with this number.
    pub fn fill(&self, page: &mut Page, n: u32) -> bool {
        if n >= self.pages {
            return false;
        }
        match self.over.find(n).or(self.under.find(n)) {
            Some(found) => page.put_bytes(0, found.bytes()),
            None => page.clear(),
        }
        true
    }
}

/// A file of pages that tells nothing. From its call number `turns_at` on, counted from 1, it is another one, and its
/// call number `fails_at` fails, as do fetches of the pages that can't be read.
#[derive(Drop)]
pub struct CasePages<'a> {
    first: Image<'a>,
    second: Image<'a>,
    turns_at: u64,
    fails_at: u64,
    unread: Unread,
    made: u64,
    faults: u64,
    fetches: u64,
    fetched: Vec<u32>,
}

impl<'a> Model for CasePages<'a> {
    ghost use Rattle.page_source.specs.Sources.{FileCounts};

    ghost Value = { FileCounts };

    ghost view = { λ file. record { faults = file.faults; fetches = file.fetches } };
}

impl<'a> CasePages<'a> {
    /// A file that stays as it is, and whose calls don't fail but those for pages that aren't there.
    pub fn new(alloc: Global, image: Image<'a>) -> CasePages<'a> {
        CasePages {
            first: image,
            second: image,
            turns_at: 0,
            fails_at: 0,
            unread: Unread::none(alloc),
            made: 0,
            faults: 0,
            fetches: 0,
            fetched: Vec::new(alloc),
        }
    }

    /// Makes the call with this number fail.
    pub fn fail_at(&mut self, call: u64) {
        self.fails_at = call;
    }

    /// Makes fetches of these pages fail.
    pub fn lose(&mut self, unread: Unread) {
        self.unread = unread;
    }

    /// Makes the file another one from the call with this number on.
    pub fn turn_at(&mut self, call: u64, image: Image<'a>) {
        self.turns_at = call;
        self.second = image;
    }

    /// The numbers of the pages that were fetched, in order.
    pub fn fetched(&self) -> &[u32] {
        &self.fetched
    }

    /// How many pages the file was asked for, also those that it didn't give.
    pub fn fetches(&self) -> u64 {
        self.fetches
    }

    /// How many calls there were, of whatever kind.
    pub fn calls(&self) -> u64 {
        self.made
    }

    /// Counts a call, and answers the file that it sees where it doesn't fail.
    fn count_call(&mut self) -> Option<Image<'a>>
        ensures { self.new ≡ self.old }
    {
        self.made = self.made.saturating_add(1);
        if self.made == self.fails_at {
            None
        } else if self.made < self.turns_at {
            Some(self.first)
        } else {
            Some(self.second)
        }
    }
}

impl PageSource for CasePages<'_> {
    ghost content = { λ file. None };

    ghost faults = { λ count. count.faults };

    ghost fetches = { λ count. count.fetches };

    fn pages(&mut self) -> Result<u32, Failed>
        ensures cause { HasCause self.old.faults self.new.faults result }
        ensures asked { self.new.fetches ≡ self.old.fetches }
    {
        match self.count_call() {
            Some(image) => Ok(image.pages),
            None => {
                self.faults = self.faults.saturating_add(1);
                Err(Failed)
            }
        }
    }

    fn fetch<L: Ledger>(
        &mut self,
        n: u32,
        page: &mut Page,
        steps: &mut Steps<L>,
    ) -> Result<(), Failed>
        ensures step { steps.new ≡ steps.old + 1 }
        ensures cause { HasCause self.old.faults self.new.faults result }
        ensures asked { AsksOne self.old.fetches self.new.fetches }
    {
        steps.tick();
        self.fetches = self.fetches.saturating_add(1);
        let is_lost = self.unread.has_failing(n);
        let is_there = match self.count_call() {
            Some(image) => !is_lost && image.fill(page, n),
            None => false,
        };
        if !is_there {
            self.faults = self.faults.saturating_add(1);
            return Err(Failed);
        }
        // Without memory the number is left out, and a line that asks for it finds another answer.
        let _ = self.fetched.push(n);
        Ok(())
    }
}
