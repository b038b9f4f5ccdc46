//! A file of pages in memory, of which only some pages are put.

ghost use Rattle.std.specs.Prelude.{◌≡◌, ◌<◌, ◌↔◌, Some, None, MatchOption, IfOk, OnOk, OnErr, IsErr, is_err};
ghost use Rattle.std.specs.FinMap.{get, insert, empty};
ghost use Rattle.page_source.specs.Faults.{HasCause};
ghost use Rattle.page_source.specs.Memory.{fresh_log, after_call, IsListed};

use crate::file::PageFile;
use page_source::{Failed, NoMemory, PAGE_SIZE, Page, PageMap};
use std::alloc::Global;
use std::marker::Model;

/// The pages that were put, and the calls so far.
#[derive(Drop)]
pub struct MemoryFile {
    alloc: Global,
    pages: PageMap,
    listed: Vec<u64>,
    made: u64,
    faults: u64,
}

impl Model for MemoryFile {
    ghost use Rattle.image_carve.specs.Files.{HeldFile, held_file_code};

    ghost Value = { HeldFile };

    ghost coded = { held_file_code };

    ghost view = { λ file. record {
      held = file.pages;
      calls = record { listed = file.listed.items; made = file.made; faults = file.faults; fetches = 0 };
    } };
}

impl MemoryFile {
    /// A file with no pages, whose calls with these numbers fail. They are numbered from 1.
    pub fn new(alloc: Global, fails: &[u64]) -> Result<MemoryFile, NoMemory>
        ensures { IfOk result (λ file. file ≡ record { held = empty; calls = fresh_log fails.now }) }
    {
        Ok(MemoryFile {
            alloc,
            pages: PageMap::new(alloc),
            listed: fails.to_vec(alloc)?,
            made: 0,
            faults: 0,
        })
    }

    /// The page that was put under this number.
    pub fn page(&self, n: u32) -> Option<&Page>
        ensures { MatchOption result (get self.now.held n ≡ None)
            (λ page. get self.now.held n ≡ Some page.now) }
    {
        self.pages.get(n)
    }
}

/// Holds a copy of the page under this number.
fn put_copy(alloc: Global, pages: &mut PageMap, n: u32, page: &Page) -> Result<(), NoMemory>
    ensures ok { OnOk result (pages.new ≡ insert pages.old n page.now) }
    ensures err { OnErr result (pages.new ≡ pages.old) }
{
    let mut copy = Page::zeroed(alloc)?;
    prove!(copy.bytes().len() == PAGE_SIZE);
    copy.put_bytes(0, page.bytes());
    pages.put(n, copy)
}

impl PageFile for MemoryFile {
    ghost held = { λ file. Some file.held };

    ghost faults = { λ file. file.calls.faults };

    fn put(&mut self, n: u32, page: &Page) -> Result<(), Failed>
        ensures listed { IsListed self.old.calls → IsErr result }
        ensures ok { OnOk result (self.new.held ≡ insert self.old.held n page.now) }
        ensures err { OnErr result (self.new.held ≡ self.old.held) }
        ensures calls { self.new.calls ≡ after_call self.old.calls (is_err result) }
        ensures cause { HasCause self.old.calls.faults self.new.calls.faults result }
    {
        self.made = self.made.saturating_add(1);
        if !self.listed.contains(&self.made)
            && put_copy(self.alloc, &mut self.pages, n, page).is_ok()
        {
            return Ok(());
        }
        self.faults = self.faults.saturating_add(1);
        Err(Failed)
    }
}
