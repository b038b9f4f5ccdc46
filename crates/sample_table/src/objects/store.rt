//! The file that is built.

ghost use Rattle.std.specs.Prelude.{◌≡◌, Some, None, OnOk, OnErr, IfOk};
ghost use Rattle.std.specs.FinMap.{insert, empty};
ghost use Rattle.page_source.specs.Objects.{file_of};

use super::pages::WholePages;
use page_source::{Failed, NoMemory, Page, PageMap, PageStore};
use std::alloc::Global;

/// A file in memory that takes the memory of each page as it is put. Its one fault is want of memory, and then it
/// holds what it held.
#[derive(Drop)]
pub(crate) struct GrowingStore {
    alloc: Global,
    size: u32,
    held: PageMap,
    asked: Option<u32>,
    faults: u64,
}

impl GrowingStore {
    /// An empty file.
    pub(crate) fn new(alloc: Global) -> GrowingStore
        ensures { (result.size ≡ 0) × (result.held ≡ empty) × (result.asked ≡ None) }
    {
        GrowingStore {
            alloc,
            size: 0,
            held: PageMap::new(alloc),
            asked: None,
            faults: 0,
        }
    }

    /// The file as a source of pages.
    pub(crate) fn into_pages(self) -> Result<WholePages, NoMemory>
        ensures { IfOk result (λ pages. file_of pages.size pages.held ≡ file_of self.size self.held) }
    {
        WholePages::new(self.alloc, self.size, self.held)
    }

    /// Holds a copy of the page.
    fn hold(&mut self, n: u32, page: &Page) -> Result<(), NoMemory>
        ensures ok { OnOk result (self.new.held ≡ insert self.old.held n page.now) }
        ensures err { OnErr result (self.new.held ≡ self.old.held) }
        ensures sizes { (self.new.size ≡ self.old.size) × (self.new.asked ≡ self.old.asked) }
        ensures faults { self.new.faults ≡ self.old.faults }
    {
        let mut copy = Page::zeroed(self.alloc)?;
        copy.put_bytes(0, page.bytes());
        self.held.put(n, copy)?;
        Ok(())
    }
}

impl PageStore for GrowingStore {
    ghost told = { λ store. record { size = Some store.size; held = Some store.held; asked = Some store.asked } };

    ghost faults = { λ store. store.faults };

    fn set_size(&mut self, pages: u32) -> Result<(), Failed> {
        self.asked = Some(pages);
        self.size = pages;
        Ok(())
    }

    fn put(&mut self, n: u32, page: &Page) -> Result<(), Failed> {
        match self.hold(n, page) {
            Ok(()) => Ok(()),
            Err(_) => {
                self.faults = self.faults.saturating_add(1);
                Err(Failed)
            }
        }
    }
}
