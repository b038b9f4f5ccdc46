//! Which calls of an object in memory fail, and how many calls and faults it counted.

ghost use Rattle.std.specs.Prelude.{◌≡◌, ◌↔◌, ◌⊎◌, List, ℕ, false, IsTrue, IfOk, IsErr, is_err, Contains};
ghost use Rattle.page_source.specs.Faults.{HasCause, AsksOne};
ghost use Rattle.page_source.specs.Memory.{CallLog, fresh_log, after_call, after_fetch, IsListed};

use crate::errors::{Failed, NoMemory};
use std::alloc::Global;
use std::marker::Model;

/// The numbers of the calls that fail. An object's calls are numbered from 1 over all its methods.
#[derive(Debug, Drop)]
pub struct Fails {
    calls: Vec<u64>,
}

impl Model for Fails {
    ghost Value = { List ℕ };

    ghost view = { λ fails. fails.calls.items };
}

impl Fails {
    /// The calls with these numbers fail.
    pub fn of(alloc: Global, calls: &[u64]) -> Result<Fails, NoMemory>
        ensures { IfOk result (λ fails. fails ≡ calls.now) }
    {
        Ok(Fails {
            calls: calls.to_vec(alloc)?,
        })
    }

    fn lists(&self, call: u64) -> bool
        ensures { IsTrue result ↔ Contains self.now call }
    {
        self.calls.contains(&call)
    }
}

/// The calls of an object so far, each counted as it is made.
#[derive(Debug, Drop)]
pub struct Calls {
    fails: Fails,
    made: u64,
    faults: u64,
    fetches: u64,
}

impl Model for Calls {
    ghost Value = { CallLog };

    ghost view = { λ calls. record {
      listed = calls.fails;
      made = calls.made;
      faults = calls.faults;
      fetches = calls.fetches;
    } };
}

impl Calls {
    /// No call yet.
    pub fn new(fails: Fails) -> Calls
        ensures { result ≡ fresh_log fails }
    {
        Calls {
            fails,
            made: 0,
            faults: 0,
            fetches: 0,
        }
    }

    /// Counts a call. It fails where it is listed, and where the object isn't able to do it.
    pub fn next(&mut self, able: bool) -> Result<(), Failed>
        ensures failed { IsErr result ↔ (IsListed self.old ⊎ (able ≡ false)) }
        ensures state { self.new ≡ after_call self.old (is_err result) }
        ensures cause { HasCause self.old.faults self.new.faults result }
    {
        self.made = self.made.saturating_add(1);
        if able && !self.fails.lists(self.made) {
            return Ok(());
        }
        self.faults = self.faults.saturating_add(1);
        Err(Failed)
    }

    /// Counts a call for a page, as `next` counts any.
    pub fn next_fetch(&mut self, able: bool) -> Result<(), Failed>
        ensures failed { IsErr result ↔ (IsListed self.old ⊎ (able ≡ false)) }
        ensures state { self.new ≡ after_fetch self.old (is_err result) }
        ensures cause { HasCause self.old.faults self.new.faults result }
        ensures asked { AsksOne self.old.fetches self.new.fetches }
    {
        self.fetches = self.fetches.saturating_add(1);
        self.next(able)
    }
}
