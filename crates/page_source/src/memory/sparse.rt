//! A file in memory of which most pages are zeros.

ghost use Rattle.std.specs.Prelude.{◌≡◌, ◌↔◌, ◌⊎◌, ◌+◌, ◌≤◌, Some, IfOk, OnOk, OnErr, IsErr, is_err};
ghost use Rattle.page_source.specs.Faults.{HasCause, AsksOne};
ghost use Rattle.page_source.specs.Pages.{page_of};
ghost use Rattle.page_source.specs.Objects.{TellsPages, held_page, file_of};
ghost use Rattle.page_source.specs.Memory.{fresh_log, after_call, after_fetch, IsListed};

use super::calls::{Calls, Fails};
use super::map::PageMap;
use super::pages::fill_page;
use crate::errors::Failed;
use crate::objects::PageSource;
use crate::page::Page;
use crate::steps::Steps;
use std::marker::Model;
use std::sync::ledger::Ledger;

/// A file of so many pages. Those that its map doesn't hold are zeros.
#[derive(Drop)]
pub struct SparsePages {
    size: u32,
    held: PageMap,
    calls: Calls,
}

impl Model for SparsePages {
    ghost use Rattle.page_source.specs.Sources.{SparseFile};
    ghost use Rattle.page_source.specs.SourceCodes.{sparse_file_code};

    ghost Value = { SparseFile };

    ghost coded = { sparse_file_code };

    ghost view = { λ file. record { size = file.size; held = file.held; calls = file.calls } };

    ghost use Rattle.page_source.specs.Sources.{AreWhole};

    ghost invariant = { λ file. AreWhole file.held };
}

impl SparsePages {
    /// A file of `pages` pages, whose listed calls fail.
    pub fn new(pages: u32, held: PageMap, fails: Fails) -> SparsePages
        ensures { result ≡ record { size = pages; held = held; calls = fresh_log fails } }
    {
        held.pages_are_whole();
        SparsePages {
            size: pages,
            held,
            calls: Calls::new(fails),
        }
    }

    fn fill(&self, n: u32, page: &mut Page)
        ensures { page.new ≡ held_page self.now.held n }
    {
        match self.held.get(n) {
            Some(found) => fill_page(page, found.bytes()),
            None => page.clear(),
        }
    }
}

impl PageSource for SparsePages {
    ghost content = { λ file. Some (file_of file.size file.held) };

    ghost faults = { λ file. file.calls.faults };

    ghost fetches = { λ file. file.calls.fetches };

    #[tactic(auto, using(crate::proofs::SparseFiles::pages_of_file))]
    fn pages(&mut self) -> Result<u32, Failed>
        ensures count { IfOk result (λ n. TellsPages (file_of self.old.size self.old.held) n) }
        ensures failed { IsErr result ↔ IsListed self.old.calls }
        ensures state { self.new ≡ record self.old { calls = after_call self.old.calls (is_err result) } }
        ensures cause { HasCause self.old.calls.faults self.new.calls.faults result }
        ensures asked { self.new.calls.fetches ≡ self.old.calls.fetches }
    {
        self.calls.next(true)?;
        Ok(self.size)
    }

    #[tactic(auto, using(crate::proofs::SparseFiles::page_of_file))]
    fn fetch<L: Ledger>(
        &mut self,
        n: u32,
        page: &mut Page,
        steps: &mut Steps<L>,
    ) -> Result<(), Failed>
        ensures bytes { OnOk result (page.new ≡ page_of (file_of self.old.size self.old.held) n) }
        ensures kept { OnErr result (page.new ≡ page.old) }
        ensures step { steps.new ≡ steps.old + 1 }
        ensures failed { IsErr result ↔ (IsListed self.old.calls ⊎ (self.old.size ≤ n)) }
        ensures state { self.new ≡ record self.old { calls = after_fetch self.old.calls (is_err result) } }
        ensures cause { HasCause self.old.calls.faults self.new.calls.faults result }
        ensures asked { AsksOne self.old.calls.fetches self.new.calls.fetches }
    {
        steps.tick();
        let is_there = n < self.size;
        self.calls.next_fetch(is_there)?;
        self.fill(n, page);
        Ok(())
    }
}
