//! Reads the parts of a chain, in order.

ghost use Rattle.std.specs.Prelude.{◌≡◌, ◌≢◌, ◌+◌, ◌≤◌, ◌<◌, ℕ, List, length, Some, Err, IfOk, OnErr};
ghost use Rattle.page_source.specs.Calls.{OfFile, HaltsOver};
ghost use Rattle.offpage_chain.specs.Reader.{ChainRest, IsRest, GoesOnAlong, GivesNext, GivesPart, LacksPart};

use crate::part::{is_part, next_part, part_length};
use crate::reference::Reference;
use page_source::{Fault, Halt, Page, PageSource, Rule, Steps};
use std::marker::Model;
use std::sync::ledger::Ledger;

/// How far a value was read along its chain.
#[derive(Debug, Drop)]
pub struct ChainReader {
    page: u32,
    lacks: u32,
}

impl Model for ChainReader {
    ghost use Rattle.offpage_chain.specs.Reader.{ChainRest};

    ghost Value = { ChainRest };

    ghost view = { λ reader. record { page = reader.page; lacks = reader.lacks } };
}

impl ChainReader {
    /// A reader of the value of a reference, before its first part.
    pub fn new(reference: &Reference) -> ChainReader
        ensures { result ≡ record { page = reference.now.page; lacks = reference.now.length } }
    {
        ChainReader {
            page: reference.page,
            lacks: reference.length,
        }
    }

    /// Fetches the next page into `page`, and gives the number of its bytes, which stand from byte 46
    /// on; none once the whole value was given. A fetch takes one from `left`, and a call fetches once
    /// at the most. `Broken` names rule 49 and the page that is due, where `left` is 0 or the page has
    /// no such part; over a file that tells its bytes, and whose chain was checked, it comes only where
    /// `left` is less than the pages that are left.
    pub fn part<S: PageSource, L: Ledger>(
        &mut self,
        source: &mut S,
        page: &mut Page,
        left: &mut u32,
        steps: &mut Steps<L>,
    ) -> Result<Option<usize>, Halt>
        requires told { OfFile S.PageSource source.old (λ file. IsRest file self.old) }
        ensures next { IfOk result (λ given. OfFile S.PageSource source.old (λ file. (pages : List ℕ)
            → GoesOnAlong file self.old pages → GivesNext file pages self.new given page.new)) }
        ensures never { OfFile S.PageSource source.old (λ file. (pages : List ℕ) (fault : Fault)
            → GoesOnAlong file self.old pages → length pages ≤ left.old → result ≢ Err (Halt.Broken fault)) }
        ensures gives { IfOk result (λ given. GivesPart self.old self.new given page.new left.old left.new) }
        ensures lacks { (fault : Fault) → result ≡ Err (Halt.Broken fault)
            → LacksPart self.old page.new left.old fault }
        ensures source { result ≡ Err Halt.Source → 0 < left.old }
        ensures kept { OnErr result (self.new ≡ self.old) }
        ensures one { left.old ≤ left.new + 1 }
        ensures once { S.fetches source.new ≤ S.fetches source.old + 1 }
        ensures cost { steps.new + left.new ≡ steps.old + left.old }
        ensures over { HaltsOver S.PageSource source.old source.new steps.old steps.new result }
    {
        if self.lacks == 0 {
            return Ok(None);
        }
        if *left == 0 {
            return Err(Halt::Broken(Rule::ChainLength.at(self.page)));
        }
        *left -= 1;
        source.fetch(self.page, page, steps)?;
        if !is_part(page, self.lacks) {
            return Err(Halt::Broken(Rule::ChainLength.at(self.page)));
        }
        let length = part_length(page);
        self.page = next_part(page);
        self.lacks -= length;
        Ok(Some(length as usize))
    }
}
