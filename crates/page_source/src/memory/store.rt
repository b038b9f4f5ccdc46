//! A file of pages that is made anew in memory.

ghost use Rattle.std.specs.Prelude.{◌≡◌, ◌↔◌, ◌⊎◌, ◌^◌, ◌<◌, Some, None, vec_len, IfOk, OnOk, OnErr, IsErr, is_err};
ghost use Rattle.std.specs.FinMap.{insert, empty};
ghost use Rattle.page_source.specs.Faults.{HasCause};
ghost use Rattle.page_source.specs.Objects.{CanSize, PutsPage};
ghost use Rattle.page_source.specs.Memory.{HeldPages, fresh_log, after_call, IsListed, store_of};
ghost use Rattle.page_source.specs.Slots.{held_from};

use super::calls::{Calls, Fails};
use super::map::PageMap;
use super::pages::fill_page;
use super::sparse::SparsePages;
use crate::errors::{Failed, NoMemory};
use crate::objects::PageStore;
use crate::page::Page;
use std::alloc::Global;
use std::marker::Model;

/// A place for one page, and whether the page was put.
#[derive(Debug, Drop)]
struct Slot {
    held: bool,
    page: Page,
}

/// A file of pages in memory, of up to so many pages as it has slots.
#[derive(Debug, Drop)]
pub struct MemoryStore {
    alloc: Global,
    slots: Vec<Slot>,
    size: u32,
    asked: Option<u32>,
    calls: Calls,
}

impl Model for MemoryStore {
    ghost use Rattle.std.specs.Prelude.{◌^◌, ◌<◌, ◌≤◌, vec_len};
    ghost use Rattle.page_source.specs.Memory.{HeldPages};
    ghost use Rattle.page_source.specs.MemoryCodes.{held_pages_code};

    ghost Value = { HeldPages };

    ghost coded = { held_pages_code };

    ghost use Rattle.page_source.specs.Slots.{held_from};

    ghost view = { λ store. record {
      size = store.size;
      held = held_from 0 store.slots.items;
      asked = store.asked;
      room = vec_len store.slots;
      calls = store.calls;
    } };

    ghost invariant = { λ store. (store.size ≤ vec_len store.slots) × (vec_len store.slots < 2 ^ 32) };
}

impl MemoryStore {
    /// An empty file with room for so many pages, whose listed calls fail. It takes all its memory
    /// here.
    pub fn new(alloc: Global, room: u32, fails: Fails) -> Result<MemoryStore, NoMemory>
        ensures { IfOk result (λ store. store
            ≡ record { size = 0; held = empty; asked = None; room = room; calls = fresh_log fails }) }
    {
        Ok(MemoryStore {
            alloc,
            slots: empty_slots(alloc, room)?,
            size: 0,
            asked: None,
            calls: Calls::new(fails),
        })
    }
}

impl MemoryStore {
    /// The file as a source of pages, whose listed calls fail. After `NoMemory` it is gone.
    pub fn into_pages(self, fails: Fails) -> Result<SparsePages, NoMemory>
        ensures { IfOk result (λ file. file
            ≡ record { size = self.size; held = self.held; calls = fresh_log fails }) }
    {
        Ok(SparsePages::new(self.size, held_pages(self.alloc, self.slots)?, fails))
    }
}

/// The pages that were put into these slots.
fn held_pages(alloc: Global, mut slots: Vec<Slot>) -> Result<PageMap, NoMemory>
    requires { vec_len slots < 2 ^ 32 }
    ensures { IfOk result (λ held. held ≡ held_from 0 slots.items) }
{
    let mut held = PageMap::new(alloc);
    while let Some(slot) = slots.pop() {
        if slot.held {
            held.put(slots.len() as u32, slot.page)?;
        }
    }
    Ok(held)
}

/// A list of so many slots that hold nothing.
#[tactic(auto, using(crate::proofs::Slots::slot_changes))]
fn empty_slots(alloc: Global, count: u32) -> Result<Vec<Slot>, NoMemory>
    ensures count { IfOk result (λ slots. vec_len slots ≡ count) }
    ensures none { IfOk result (λ slots. held_from 0 slots.items ≡ empty) }
{
    let mut slots = Vec::with_capacity(alloc, count as usize)?;
    for _i in 0..count {
        slots.push(Slot {
            held: false,
            page: Page::zeroed(alloc)?,
        })?;
    }
    Ok(slots)
}

impl PageStore for MemoryStore {
    ghost told = { store_of };

    ghost faults = { λ store. store.calls.faults };

    fn set_size(&mut self, pages: u32) -> Result<(), Failed>
        requires { CanSize (store_of self.old) pages }
        ensures failed { IsErr result ↔ (IsListed self.old.calls ⊎ (self.old.room < pages)) }
        ensures ok { OnOk result (self.new.size ≡ pages) }
        ensures err { OnErr result (self.new.size ≡ self.old.size) }
        ensures others { self.new ≡ record self.old {
          size = self.new.size;
          asked = Some pages;
          calls = after_call self.old.calls (is_err result);
        } }
        ensures cause { HasCause self.old.calls.faults self.new.calls.faults result }
    {
        self.asked = Some(pages);
        let fits = pages as usize <= self.slots.len();
        self.calls.next(fits)?;
        self.size = pages;
        Ok(())
    }

    #[tactic(auto, using(crate::proofs::Slots::slot_changes))]
    fn put(&mut self, n: u32, page: &Page) -> Result<(), Failed>
        requires { n < self.old.size }
        ensures failed { IsErr result ↔ IsListed self.old.calls }
        ensures ok { OnOk result (self.new.held ≡ insert self.old.held n page.now) }
        ensures err { OnErr result (self.new.held ≡ self.old.held) }
        ensures others { self.new ≡ record self.old {
          held = self.new.held;
          calls = after_call self.old.calls (is_err result);
        } }
        ensures done { PutsPage (store_of self.old) (store_of self.new) n page.now result }
        ensures cause { HasCause self.old.calls.faults self.new.calls.faults result }
    {
        self.calls.next(true)?;
        let slot = &mut self.slots[n as usize];
        fill_page(&mut slot.page, page.bytes());
        slot.held = true;
        Ok(())
    }
}
