//! A file in memory that keeps which of its pages were fetched.

ghost use Rattle.std.specs.Prelude.{◌≡◌, ◌↔◌, ◌+◌, ◌≤◌, [], Some, IfOk, OnOk, OnErr, IsErr, is_err, false};
ghost use Rattle.page_source.specs.Pages.{page_of, page_count};
ghost use Rattle.page_source.specs.Faults.{HasCause, AsksOne};
ghost use Rattle.page_source.specs.Objects.{TellsPages};
ghost use Rattle.page_source.specs.Memory.{fresh_log, after_call, after_fetch};
ghost use Rattle.page_source.specs.Sources.{log_after};

use super::calls::Fails;
use super::pages::MemoryPages;
use crate::bytes::ByteList;
use crate::errors::{Failed, NoMemory};
use crate::objects::PageSource;
use crate::page::Page;
use crate::steps::Steps;
use std::alloc::Global;
use std::marker::Model;
use std::sync::ledger::Ledger;

/// A file held in memory, and the numbers of the pages that it gave, at most the first `room`.
#[derive(Drop)]
pub struct LoggedPages {
    file: MemoryPages,
    numbers: Vec<u32>,
    count: usize,
}

impl Model for LoggedPages {
    ghost use Rattle.std.specs.Prelude.{◌≡◌, ◌≤◌, [], length, take, vec_len};
    ghost use Rattle.page_source.specs.Sources.{LoggedFile};

    ghost Value = { LoggedFile };

    ghost view = { λ logged. record {
      file = logged.file;
      room = length logged.numbers.items;
      fetched = take logged.count logged.numbers.items;
    } };

    ghost invariant = { λ logged. (logged.count ≤ length logged.numbers.items) × (logged.file.calls.listed ≡ []) };
}

impl LoggedPages {
    /// A file of these bytes, none of whose calls fails but the fetch of a page that isn't there. It
    /// takes all its memory here.
    pub fn new(alloc: Global, bytes: ByteList, room: usize) -> Result<LoggedPages, NoMemory>
        ensures { IfOk result (λ logged. logged
            ≡ record { file = record { bytes = bytes; calls = fresh_log [] }; room = room; fetched = [] }) }
    {
        Ok(LoggedPages {
            numbers: Vec::from_elem(alloc, 0, room)?,
            count: 0,
            file: MemoryPages::new(bytes, Fails::of(alloc, &[])?),
        })
    }

    /// The numbers of the pages that were fetched, in order, at most the first `room`.
    pub fn log(&self) -> &[u32]
        ensures { result.now ≡ self.now.fetched }
    {
        &self.numbers[..self.count]
    }

    fn keep(&mut self, n: u32)
        ensures { self.new ≡ record self.old { fetched = log_after self.old n false } }
    {
        if self.count < self.numbers.len() {
            self.numbers[self.count] = n;
            self.count += 1;
        }
    }
}

impl PageSource for LoggedPages {
    ghost content = { λ logged. Some logged.file.bytes };

    ghost faults = { λ logged. logged.file.calls.faults };

    ghost fetches = { λ logged. logged.file.calls.fetches };

    fn pages(&mut self) -> Result<u32, Failed>
        ensures count { IfOk result (λ n. TellsPages self.old.file.bytes n) }
        ensures failed { is_err result ≡ false }
        ensures state { self.new
            ≡ record self.old { file = record self.old.file { calls = after_call self.old.file.calls false } } }
        ensures cause { HasCause self.old.file.calls.faults self.new.file.calls.faults result }
        ensures asked { self.new.file.calls.fetches ≡ self.old.file.calls.fetches }
    {
        self.file.pages()
    }

    fn fetch<L: Ledger>(
        &mut self,
        n: u32,
        page: &mut Page,
        steps: &mut Steps<L>,
    ) -> Result<(), Failed>
        ensures bytes { OnOk result (page.new ≡ page_of self.old.file.bytes n) }
        ensures kept { OnErr result (page.new ≡ page.old) }
        ensures step { steps.new ≡ steps.old + 1 }
        ensures failed { IsErr result ↔ (page_count self.old.file.bytes ≤ n) }
        ensures state { self.new ≡ record self.old {
          file = record self.old.file { calls = after_fetch self.old.file.calls (is_err result) };
          fetched = log_after self.old n (is_err result);
        } }
        ensures cause { HasCause self.old.file.calls.faults self.new.file.calls.faults result }
        ensures asked { AsksOne self.old.file.calls.fetches self.new.file.calls.fetches }
    {
        self.file.fetch(n, page, steps)?;
        self.keep(n);
        Ok(())
    }
}
