//! A file in memory that changes between two of its calls, and tells nothing.

ghost use Rattle.std.specs.Prelude.{◌≡◌, ◌↔◌, ◌+◌, ◌≤◌, None, IfOk, OnOk, OnErr, IsErr, is_err, false};
ghost use Rattle.page_source.specs.Pages.{page_of, page_count};
ghost use Rattle.page_source.specs.Faults.{HasCause, AsksOne, one_more};
ghost use Rattle.page_source.specs.Objects.{TellsPages};
ghost use Rattle.page_source.specs.Sources.{seen_next, after_seen};

use super::pages::{fill_from, page_total};
use crate::bytes::ByteList;
use crate::errors::Failed;
use crate::objects::PageSource;
use crate::page::Page;
use crate::steps::Steps;
use std::marker::Model;
use std::sync::ledger::Ledger;

/// A file whose calls before one of them see the first bytes, and that one and the later ones the
/// second.
#[derive(Debug, Drop)]
pub struct ChangingPages {
    first: ByteList,
    second: ByteList,
    at: u64,
    made: u64,
    faults: u64,
    fetches: u64,
}

impl Model for ChangingPages {
    ghost use Rattle.page_source.specs.Sources.{ChangingFile};

    ghost Value = { ChangingFile };

    ghost view = { λ file. record {
      first = file.first;
      second = file.second;
      at = file.at;
      made = file.made;
      faults = file.faults;
      fetches = file.fetches;
    } };
}

impl ChangingPages {
    /// A file of the first bytes until its call number `at`, counted from 1, and of the second from
    /// that call on.
    pub fn new(first: ByteList, second: ByteList, at: u64) -> ChangingPages
        ensures { result
            ≡ record { first = first; second = second; at = at; made = 0; faults = 0; fetches = 0 } }
    {
        ChangingPages {
            first,
            second,
            at,
            made: 0,
            faults: 0,
            fetches: 0,
        }
    }

    /// The bytes that a call sees, the last that was counted.
    fn seen(&self, call: u64) -> &ByteList
        requires { call ≡ one_more self.now.made }
        ensures { result.now ≡ seen_next self.now }
    {
        if call < self.at {
            &self.first
        } else {
            &self.second
        }
    }
}

impl PageSource for ChangingPages {
    ghost content = { λ file. None };

    ghost faults = { λ file. file.faults };

    ghost fetches = { λ file. file.fetches };

    fn pages(&mut self) -> Result<u32, Failed>
        ensures count { IfOk result (λ n. TellsPages (seen_next self.old) n) }
        ensures failed { is_err result ≡ false }
        ensures state { self.new ≡ after_seen self.old false }
        ensures cause { HasCause self.old.faults self.new.faults result }
        ensures asked { self.new.fetches ≡ self.old.fetches }
    {
        let call = self.made.saturating_add(1);
        let pages = page_total(self.seen(call)).min(u32::MAX as usize) as u32;
        self.made = call;
        Ok(pages)
    }

    fn fetch<L: Ledger>(
        &mut self,
        n: u32,
        page: &mut Page,
        steps: &mut Steps<L>,
    ) -> Result<(), Failed>
        ensures bytes { OnOk result (page.new ≡ page_of (seen_next self.old) n) }
        ensures kept { OnErr result (page.new ≡ page.old) }
        ensures step { steps.new ≡ steps.old + 1 }
        ensures failed { IsErr result ↔ (page_count (seen_next self.old) ≤ n) }
        ensures state { self.new
            ≡ record (after_seen self.old (is_err result)) { fetches = one_more self.old.fetches } }
        ensures cause { HasCause self.old.faults self.new.faults result }
        ensures asked { AsksOne self.old.fetches self.new.fetches }
    {
        steps.tick();
        self.fetches = self.fetches.saturating_add(1);
        let call = self.made.saturating_add(1);
        let is_there = (n as usize) < page_total(self.seen(call));
        if is_there {
            fill_from(page, self.seen(call), n);
        } else {
            self.faults = self.faults.saturating_add(1);
        }
        self.made = call;
        if is_there { Ok(()) } else { Err(Failed) }
    }
}
