//! Pages by their numbers.

ghost use Rattle.std.specs.Prelude.{◌≡◌, Some, None, OnOk, OnErr, MatchOption};
ghost use Rattle.std.specs.FinMap.{get, insert, empty};
ghost use Rattle.page_source.specs.Sources.{AreWhole};

use crate::errors::NoMemory;
use crate::page::{PAGE_SIZE, Page};
use std::alloc::Global;
use std::collections::BTreeMap;
use std::marker::Model;

/// An ordered map from the numbers of pages to the pages.
#[derive(Drop)]
pub struct PageMap {
    pages: BTreeMap<u32, Page>,
}

impl Model for PageMap {
    ghost use Rattle.std.specs.FinMap.{from_entries};
    ghost use Rattle.page_source.specs.Objects.{PageMap as Pages};
    ghost use Rattle.page_source.specs.SourceCodes.{page_map_code};
    ghost use Rattle.page_source.specs.Sources.{AreWhole};

    ghost Value = { Pages };

    ghost coded = { page_map_code };

    ghost view = { λ map. from_entries map.pages.entries };

    ghost invariant = { λ map. AreWhole (from_entries map.pages.entries) };
}

impl PageMap {
    /// No page.
    pub fn new(alloc: Global) -> PageMap
        ensures { result ≡ empty }
    {
        PageMap {
            pages: BTreeMap::new(alloc),
        }
    }

    /// Holds the page under this number, in place of the one that was held there.
    pub fn put(&mut self, n: u32, page: Page) -> Result<(), NoMemory>
        ensures ok { OnOk result (self.new ≡ insert self.old n page) }
        ensures err { OnErr result (self.new ≡ self.old) }
    {
        prove!(page.bytes().len() == PAGE_SIZE);
        self.pages.insert(n, page)?;
        Ok(())
    }

    /// Each page of the map has all its bytes.
    pub fn pages_are_whole(&self)
        ensures { AreWhole self.now }
    {
        let _ = &self.pages;
    }

    /// The page that is held under this number.
    pub fn get(&self, n: u32) -> Option<&Page>
        ensures { MatchOption result (get self.now n ≡ None) (λ page. get self.now n ≡ Some page.now) }
    {
        self.pages.get(&n)
    }
}
