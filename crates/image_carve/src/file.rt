//! A file of pages that is made anew, of which only some pages are put.

ghost use Rattle.std.specs.Prelude.{◌≡◌, ◌<◌, ℕ, Option, None, OnOk, OnErr, is_err};
ghost use Rattle.page_source.specs.Faults.{HasCause, count_after};
ghost use Rattle.page_source.specs.Objects.{PageMap, HoldsPage, HoldsOthers};

use page_source::{Failed, FileStore, Page, PageStore};
use std::fs::Files;

/// A file of pages that is made anew, and ends after the greatest page that was put. A page below that wasn't put is
/// zeros.
pub trait PageFile {
    /// The pages that were put, where the object tells them.
    ghost held: { Self → Option PageMap };

    /// A number of faults, which never falls.
    ghost faults: { Self → ℕ };

    /// Puts page `n`, in place of the one that was put there. After `Failed` nothing is said of this page.
    fn put(&mut self, n: u32, page: &Page) -> Result<(), Failed>
        requires { n < 4194304 }
        ensures ok { OnOk result (HoldsPage (held self.old) (held self.new) n page.now) }
        ensures failed { OnErr result (HoldsOthers (held self.old) (held self.new) n) }
        ensures cause { HasCause (faults self.old) (faults self.new) result };
}

impl<R: Files> PageFile for FileStore<'_, R> {
    ghost held = { λ file. None };

    ghost faults = { λ file. file.faults };

    fn put(&mut self, n: u32, page: &Page) -> Result<(), Failed>
        ensures count { self.new ≡ record self.old { faults = count_after self.old.faults (is_err result) } }
        ensures cause { HasCause self.old.faults self.new.faults result }
    {
        PageStore::put(self, n, page)
    }
}
