//! The lines of a listing, counted page by page.

ghost use Rattle.std.specs.Prelude.{◌≡◌, IfOk, OnOk, IfSome};
ghost use Rattle.std.specs.BTreeMap.{get, IsOrdered};
ghost use Rattle.page_source.specs.Calls.{Puts as PutsText};
ghost use Rattle.image_listing.specs.Listing.{listing_text};
ghost use Rattle.image_listing.specs.Versions.{Puts, page_cmp};
ghost use Rattle.image_listing.specs.Tallies.{line_cmp, next_tally, with_page, CountsPage, HasRoom, HaveRoom};
ghost use Rattle.image_listing.specs.Tallies.{AreTallies, lines_of};

use crate::catalogue::{Catalogue, Version};
use crate::line_text::put_line;
use page_source::{ByteSink, Failed, NoMemory};
use std::alloc::Global;
use std::collections::BTreeMap;

/// How many pages a line counts, how many of them are leaves, and their greatest LSN.
#[derive(Clone, Copy, Debug, PartialEq, Eq)]
pub(crate) struct Tally {
    pub leaves: u64,
    pub pages: u64,
    pub newest: u64,
}

/// The lines of a listing, in their order.
#[derive(Debug, Drop)]
pub(crate) struct Lines {
    /// The tally of each line: by space, and by index for the line of an index.
    pub tallies: BTreeMap<(u32, Option<u64>), Tally>,
}

impl Lines {
    /// The lines of the pages of a catalogue.
    pub(crate) fn of(alloc: Global, catalogue: Catalogue) -> Result<Lines, NoMemory>
        ensures tallies { IfOk result (λ lines. AreTallies catalogue.pages.entries lines.tallies) }
        ensures rise { IfOk result (λ lines. IsOrdered line_cmp lines.tallies) }
        ensures pages_rise { IsOrdered page_cmp catalogue.pages }
    {
        let mut lines = Lines {
            tallies: BTreeMap::new(alloc),
        };
        for (key, version) in catalogue.pages {
            lines.count_page(key.0, version)?;
        }
        Ok(lines)
    }

    /// Counts a page of a space in the line of the space, and in that of its index.
    fn count_page(&mut self, space: u32, version: Version) -> Result<(), NoMemory>
        requires { HaveRoom self.old.tallies }
        ensures counts { OnOk result (CountsPage self.old.tallies self.new.tallies space version) }
        ensures rise { OnOk result (IsOrdered line_cmp self.new.tallies) }
    {
        self.count((space, None), version)?;
        if version.index.is_some() {
            self.count((space, version.index), version)?;
        }
        Ok(())
    }

    /// Counts a page in one line.
    fn count(&mut self, key: (u32, Option<u64>), version: Version) -> Result<(), NoMemory>
        requires { IfSome (get line_cmp self.old.tallies key) HasRoom }
        ensures puts { OnOk result (Puts line_cmp self.old.tallies self.new.tallies key
            (next_tally (get line_cmp self.old.tallies key) version)) }
        ensures rise { OnOk result (IsOrdered line_cmp self.new.tallies) }
    {
        let tally = match self.tallies.get(&key) {
            Some(tally) => *tally,
            None => Tally {
                leaves: 0,
                pages: 0,
                newest: 0,
            },
        };
        self.tallies.insert(key, tally.with_page(version))?;
        Ok(())
    }

    /// Puts the text of the lines.
    pub(crate) fn put<O: ByteSink>(&self, out: &mut O) -> Result<(), Failed>
        ensures { PutsText O.ByteSink out.old out.new (listing_text (lines_of self.now.tallies)) result }
    {
        for (key, tally) in &self.tallies {
            put_line(out, *key, *tally)?;
        }
        Ok(())
    }
}

impl Tally {
    /// The tally with one page more.
    fn with_page(self, version: Version) -> Tally
        requires { HasRoom self }
        ensures { result ≡ with_page self version }
    {
        Tally {
            leaves: self.leaves + u64::from(version.leaf),
            pages: self.pages + 1,
            newest: self.newest.max(version.lsn),
        }
    }
}
