//! The built file, as it is read.

ghost use Rattle.std.specs.Prelude.{◌≡◌, ◌+◌, ◌<◌, Some, false, is_err, IfOk, OnOk};
ghost use Rattle.page_source.specs.Faults.{AsksOne};
ghost use Rattle.page_source.specs.Pages.{page_of, page_count};
ghost use Rattle.page_source.specs.Objects.{TellsPages, file_of};

use page_source::{Failed, Fails, NoMemory, Page, PageMap, PageSource, SparsePages, Steps};
use std::alloc::Global;
use std::marker::Model;
use std::sync::ledger::Ledger;

/// A file in memory none of whose calls fails.
#[derive(Drop)]
pub(crate) struct WholePages {
    file: SparsePages,
}

impl Model for WholePages {
    ghost use Rattle.std.specs.Prelude.{◌≡◌, []};
    ghost use Rattle.page_source.specs.Sources.{SparseFile, AreWhole};
    ghost use Rattle.page_source.specs.SourceCodes.{sparse_file_code};

    ghost Value = { SparseFile };

    ghost coded = { sparse_file_code };

    ghost view = { λ pages. pages.file };

    ghost invariant = { λ pages. (pages.file.calls.listed ≡ []) × AreWhole pages.file.held };
}

impl WholePages {
    /// A file of so many pages. Those that the map doesn't hold are zeros.
    pub(crate) fn new(alloc: Global, size: u32, held: PageMap) -> Result<WholePages, NoMemory>
        ensures { IfOk result (λ pages. file_of pages.size pages.held ≡ file_of size held) }
    {
        held.pages_are_whole();
        Ok(WholePages {
            file: SparsePages::new(size, held, Fails::of(alloc, &[])?),
        })
    }
}

impl PageSource for WholePages {
    ghost content = { λ pages. Some (file_of pages.size pages.held) };

    ghost faults = { λ _. 0 };

    ghost fetches = { λ pages. pages.calls.fetches };

    fn pages(&mut self) -> Result<u32, Failed>
        ensures same { file_of self.new.size self.new.held ≡ file_of self.old.size self.old.held }
        ensures count { IfOk result (λ n. TellsPages (file_of self.old.size self.old.held) n) }
        ensures never { is_err result ≡ false }
        ensures asked { self.new.calls.fetches ≡ self.old.calls.fetches }
    {
        self.file.pages()
    }

    #[tactic(auto, using(page_source::proofs::SparseFiles::pages_of_file))]
    fn fetch<L: Ledger>(
        &mut self,
        n: u32,
        page: &mut Page,
        steps: &mut Steps<L>,
    ) -> Result<(), Failed>
        requires { n < page_count (file_of self.old.size self.old.held) }
        ensures same { file_of self.new.size self.new.held ≡ file_of self.old.size self.old.held }
        ensures bytes { OnOk result (page.new ≡ page_of (file_of self.old.size self.old.held) n) }
        ensures never { is_err result ≡ false }
        ensures step { steps.new ≡ steps.old + 1 }
        ensures asked { AsksOne self.old.calls.fetches self.new.calls.fetches }
    {
        self.file.fetch(n, page, steps)
    }
}
