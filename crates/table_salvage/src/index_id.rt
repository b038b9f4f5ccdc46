//! The id of the clustered index.

ghost use Rattle.std.specs.Prelude.{◌≡◌, ◌≢◌, ◌+◌, ◌≤◌, IfOk, Err};
ghost use Rattle.page_source.specs.Calls.{OfFile, AsksNoMore};
ghost use Rattle.page_source.specs.Faults.{Rose};
ghost use Rattle.page_source.specs.declared.rule.Fault.{Fault};
ghost use Rattle.leaf_salvage.specs.Standing.{reach_of};
ghost use Rattle.salvage_model.specs.IndexId.{IsId, HasNoId};
ghost use Rattle.salvage_model.specs.Salvage.{id_fetches};

use leaf_salvage::index_id;
use page_source::{Page, PageSource, Steps};
use salvage_model::SalvageStop;
use schema_text::Schema;
use std::sync::ledger::Ledger;

/// The id of the clustered index: the one that is given, or else that of the page of its root, of a file of which so
/// many pages are looked at. `Root` where neither is there.
pub(crate) fn clustered_id<S: PageSource, L: Ledger>(
    source: &mut S,
    schema: &Schema,
    pages: u32,
    given: Option<u64>,
    page: &mut Page,
    steps: &mut Steps<L>,
) -> Result<u64, SalvageStop>
    requires told { OfFile S.PageSource source.old (λ file. pages ≡ reach_of file) }
    ensures found { IfOk result (λ id. OfFile S.PageSource source.old (λ file. IsId file schema.now given id)) }
    ensures rootless { result ≡ Err SalvageStop.Root
        → OfFile S.PageSource source.old (λ file. HasNoId file schema.now given) }
    ensures source { result ≡ Err SalvageStop.Source → Rose (S.faults source.old) (S.faults source.new) }
    ensures found_by { result ≡ Err SalvageStop.Source
        → S.fetches source.new ≤ S.fetches source.old + id_fetches given }
    ensures unwritten { (result ≢ Err SalvageStop.Sink) × (result ≢ Err SalvageStop.Losses)
        × (result ≢ Err SalvageStop.Memory) }
    ensures unchanged { (fault : Fault) → result ≢ Err (SalvageStop.Changed fault) }
    ensures same { S.content source.new ≡ S.content source.old }
    ensures later { S.faults source.old ≤ S.faults source.new }
    ensures asked { AsksNoMore S.PageSource source.old source.new steps.old steps.new }
    ensures cost { steps.new ≤ steps.old + 1 }
{
    if let Some(id) = given {
        return Ok(id);
    }
    let root = schema.indexes()[0].root;
    if root >= pages {
        return Err(SalvageStop::Root);
    }
    if source.fetch(root, page, steps).is_err() {
        return Err(SalvageStop::Source);
    }
    index_id(page, root).ok_or(SalvageStop::Root)
}
