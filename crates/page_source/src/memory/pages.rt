//! A file of pages in memory.

ghost use Rattle.std.specs.Prelude.{◌≡◌, ◌↔◌, ◌⊎◌, ◌+◌, ◌<◌, ◌≤◌, Some, length, IfOk, OnOk, OnErr, IsErr, is_err};
ghost use Rattle.page_source.specs.Pages.{page_of, page_count};
ghost use Rattle.page_source.specs.Faults.{HasCause, AsksOne};
ghost use Rattle.page_source.specs.Objects.{TellsPages};
ghost use Rattle.page_source.specs.Memory.{HeldBytes, fresh_log, after_call, after_fetch, IsListed};

use super::calls::{Calls, Fails};
use crate::bytes::ByteList;
use crate::errors::Failed;
use crate::objects::PageSource;
use crate::page::{PAGE_SIZE, Page};
use crate::steps::Steps;
use std::marker::Model;
use std::sync::ledger::Ledger;

/// A file held in memory.
#[derive(Debug, Drop)]
pub struct MemoryPages {
    bytes: ByteList,
    calls: Calls,
}

impl Model for MemoryPages {
    ghost Value = { HeldBytes };

    ghost view = { λ file. record { bytes = file.bytes; calls = file.calls } };
}

impl MemoryPages {
    /// A file of these bytes, whose listed calls fail.
    pub fn new(bytes: ByteList, fails: Fails) -> MemoryPages
        ensures { result ≡ record { bytes = bytes; calls = fresh_log fails } }
    {
        MemoryPages {
            bytes,
            calls: Calls::new(fails),
        }
    }
}

impl PageSource for MemoryPages {
    ghost content = { λ file. Some file.bytes };

    ghost faults = { λ file. file.calls.faults };

    ghost fetches = { λ file. file.calls.fetches };

    fn pages(&mut self) -> Result<u32, Failed>
        ensures count { IfOk result (λ n. TellsPages self.old.bytes n) }
        ensures failed { IsErr result ↔ IsListed self.old.calls }
        ensures state { self.new ≡ record self.old { calls = after_call self.old.calls (is_err result) } }
        ensures cause { HasCause self.old.calls.faults self.new.calls.faults result }
        ensures asked { self.new.calls.fetches ≡ self.old.calls.fetches }
    {
        self.calls.next(true)?;
        Ok(page_total(&self.bytes).min(u32::MAX as usize) as u32)
    }

    fn fetch<L: Ledger>(
        &mut self,
        n: u32,
        page: &mut Page,
        steps: &mut Steps<L>,
    ) -> Result<(), Failed>
        ensures bytes { OnOk result (page.new ≡ page_of self.old.bytes n) }
        ensures kept { OnErr result (page.new ≡ page.old) }
        ensures step { steps.new ≡ steps.old + 1 }
        ensures failed { IsErr result ↔ (IsListed self.old.calls ⊎ (page_count self.old.bytes ≤ n)) }
        ensures state { self.new ≡ record self.old { calls = after_fetch self.old.calls (is_err result) } }
        ensures cause { HasCause self.old.calls.faults self.new.calls.faults result }
        ensures asked { AsksOne self.old.calls.fetches self.new.calls.fetches }
    {
        steps.tick();
        let is_there = (n as usize) < page_total(&self.bytes);
        self.calls.next_fetch(is_there)?;
        fill_from(page, &self.bytes, n);
        Ok(())
    }
}

/// The number of whole pages that these bytes are.
#[tactic(auto, unfolding(crate::specs::Pages::page_count))]
pub fn page_total(bytes: &ByteList) -> usize
    ensures { result ≡ page_count bytes.now }
{
    bytes.bytes().len() / PAGE_SIZE
}

/// Makes the page that of this number among these bytes.
#[tactic(auto, unfolding(crate::specs::Pages::page_count, crate::specs::Pages::page_of))]
pub fn fill_from(page: &mut Page, bytes: &ByteList, n: u32)
    requires { n < page_count bytes.now }
    ensures { page.new ≡ page_of bytes.now n }
{
    let start = n as usize * PAGE_SIZE;
    fill_page(page, &bytes.bytes()[start..start + PAGE_SIZE]);
}

/// Makes these the page's bytes.
#[tactic(auto, unfolding(crate::specs::Pages::with_bytes))]
pub fn fill_page(page: &mut Page, bytes: &[u8])
    requires { length bytes.now ≡ 16384 }
    ensures { page.new ≡ bytes.now }
{
    prove!(page.bytes().len() == PAGE_SIZE);
    page.put_bytes(0, bytes);
}
