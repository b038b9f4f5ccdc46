//! The store that a case builds or carves into.

ghost use Rattle.std.specs.Prelude.{◌≡◌, ℕ, None};
ghost use Rattle.page_source.specs.Faults.{HasCause};
ghost use Rattle.page_source.specs.Objects.{untold};

use crate::edited_pages::EditedPages;
use image_carve::PageFile;
use page_source::{Failed, PAGE_SIZE, Page, PageStore};
use std::alloc::Global;
use std::marker::Model;

/// A store that tells nothing, and has room for so many pages. Its call number `fails_at`, counted from 1, fails.
#[derive(Drop)]
pub struct CaseStore {
    alloc: Global,
    room: u32,
    fails_at: u64,
    made: u64,
    faults: u64,
    size: u32,
    held: EditedPages,
}

impl Model for CaseStore {
    ghost Value = { ℕ };

    ghost view = { λ store. store.faults };
}

impl CaseStore {
    /// An empty store. The call number 0 is that of no call.
    pub fn new(alloc: Global, room: u32, fails_at: u64) -> CaseStore {
        CaseStore {
            alloc,
            room,
            fails_at,
            made: 0,
            faults: 0,
            size: 0,
            held: EditedPages::new(alloc),
        }
    }

    /// Whether no call was made.
    pub fn is_untouched(&self) -> bool {
        self.made == 0
    }

    /// Whether page 0 was put.
    pub fn holds_head(&self) -> bool {
        self.held.find(0).is_some()
    }

    /// How many bytes the store's file has.
    pub fn bytes(&self) -> u64 {
        u64::from(self.size) * PAGE_SIZE as u64
    }

    /// The pages of the store.
    pub fn into_pages(self) -> EditedPages {
        self.held
    }

    /// Counts a call, which fails where it is the one that is to, or where the store isn't able to do it.
    fn count_call(&mut self, is_able: bool) -> Result<(), Failed>
        ensures cause { HasCause self.old self.new result }
    {
        self.made = self.made.saturating_add(1);
        if is_able && self.made != self.fails_at {
            return Ok(());
        }
        self.faults = self.faults.saturating_add(1);
        Err(Failed)
    }
}

impl PageStore for CaseStore {
    ghost told = { λ store. untold };

    ghost faults = { λ count. count };

    fn set_size(&mut self, pages: u32) -> Result<(), Failed> {
        self.count_call(pages <= self.room)?;
        self.size = pages;
        Ok(())
    }

    fn put(&mut self, n: u32, page: &Page) -> Result<(), Failed> {
        self.count_call(n < self.size)?;
        if self.held.put(self.alloc, n, page.bytes()).is_err() {
            self.faults = self.faults.saturating_add(1);
            return Err(Failed);
        }
        Ok(())
    }
}

impl PageFile for CaseStore {
    ghost held = { λ store. None };

    ghost faults = { λ count. count };

    fn put(&mut self, n: u32, page: &Page) -> Result<(), Failed> {
        self.size = self.size.max(n.saturating_add(1));
        PageStore::put(self, n, page)?;
        Ok(())
    }
}
