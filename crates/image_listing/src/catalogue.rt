//! The newest version of each page that is found in an image.

ghost use Rattle.std.specs.Prelude.{◌≡◌, OnOk};
ghost use Rattle.std.specs.BTreeMap.{IsEmpty, get};
ghost use Rattle.image_listing.specs.Versions.{Puts, newer, page_cmp, version_of};

use fil_frame::kind;
use fil_frame::kinds::FIL_PAGE_INDEX;
use index_page::layout::{INDEX_ID, LEVEL};
use page_scan::{FoundPage, lsn};
use page_source::{NoMemory, Page, read_be};
use std::alloc::Global;
use std::collections::BTreeMap;

/// What is kept of a version of a page.
#[derive(Clone, Copy, Debug, PartialEq, Eq)]
pub(crate) struct Version {
    /// The LSN of the page's last change.
    pub lsn: u64,
    /// The id of the page's index, if it is an index page.
    pub index: Option<u64>,
    /// Whether the page is a leaf.
    pub leaf: bool,
}

/// The newest version of each page that was met.
#[derive(Debug, Drop)]
pub(crate) struct Catalogue {
    /// The versions by the spaces and the numbers of their pages.
    pub pages: BTreeMap<(u32, u32), Version>,
}

impl Catalogue {
    /// No page was met.
    pub(crate) fn new(alloc: Global) -> Catalogue
        ensures { IsEmpty result.pages }
    {
        Catalogue {
            pages: BTreeMap::new(alloc),
        }
    }

    /// Takes note of a page that was met. Of versions with the same LSN the first counts.
    pub(crate) fn note(&mut self, found: FoundPage, page: &Page) -> Result<(), NoMemory>
        ensures { OnOk result (Puts page_cmp self.old.pages self.new.pages (found.space, found.number)
            (newer (get page_cmp self.old.pages (found.space, found.number)) (version_of page.now))) }
    {
        let key = (found.space, found.number);
        let version = read_version(page);
        if let Some(kept) = self.pages.get(&key) {
            if kept.lsn >= version.lsn {
                return Ok(());
            }
        }
        self.pages.insert(key, version)?;
        Ok(())
    }
}

fn read_version(page: &Page) -> Version
    ensures { result ≡ version_of page.now }
{
    let is_index_page = kind(page) == FIL_PAGE_INDEX;
    Version {
        lsn: lsn(page),
        index: is_index_page.then_some(read_be::<8>(page, INDEX_ID)),
        leaf: is_index_page && read_be::<2>(page, LEVEL) == 0,
    }
}
