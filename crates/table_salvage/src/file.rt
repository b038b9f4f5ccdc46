//! The records of a whole file.

ghost use Rattle.std.specs.Prelude.{◌≡◌, ◌≢◌, ◌+◌, ◌*◌, ◌≤◌, true, false, Err};
ghost use Rattle.std.specs.Bool.{MatchBool};
ghost use Rattle.page_source.specs.Calls.{OfFile};
ghost use Rattle.table_check.specs.First.{TakesSteps, AsksAtMost};
ghost use Rattle.salvage_model.specs.declared.stop.SalvageStop.{SalvageStop};
ghost use Rattle.salvage_model.specs.Causes.{Counts, counts_of};
ghost use Rattle.salvage_model.specs.IndexId.{IsId};
ghost use Rattle.salvage_model.specs.Salvage.{Salvages, SalvagesRegardless, SalvagesOver};
ghost use Rattle.salvage_model.specs.Salvage.{salvage_steps};
ghost use Rattle.table_salvage.specs.Heard.{SalvagesHeeding};
ghost use Rattle.table_salvage.specs.Ready.{IsReady, IsNew};
ghost use Rattle.table_salvage.specs.Work.{wanted_of};

use crate::index_id::clustered_id;
use crate::page::save_page;
use crate::report::report_numbers;
use crate::room::Room;
use crate::search::Search;
use leaf_salvage::MOST_PAGES;
use page_source::{ByteSink, Page, PageSource, Steps};
use salvage_model::{RecordKind, SalvageStop, Saved};
use schema_text::Schema;
use std::alloc::Global;
use std::sync::ledger::Ledger;

/// Which records are looked for, the id of the clustered index if it is given, and whether a failure of the report ends
/// the salvage.
#[derive(Clone, Copy)]
pub(crate) struct Wish {
    pub kind: RecordKind,
    pub index: Option<u64>,
    pub heeds: bool,
}

/// Writes a line for each record of this kind on each leaf of the clustered index that stands whole by itself, in the
/// order of the pages, and reports each page that was lost, each value that was, and at last the numbers. The leaves
/// are the pages with this index id, or with that of the root's page. Each page is fetched once at the most, besides
/// the root's, which is fetched for its id, and pages that values go on in, which are fetched once to be checked, and
/// once more as a line is written. A page that can't be fetched is reported, and ends nothing. A report that fails ends
/// the salvage after the page in hand.
pub fn salvage<S: PageSource, O: ByteSink, E: ByteSink, L: Ledger>(
    alloc: Global,
    source: &mut S,
    schema: &Schema,
    kind: RecordKind,
    index: Option<u64>,
    sink: &mut O,
    losses: &mut E,
    steps: &mut Steps<L>,
) -> Result<Saved, SalvageStop>
    ensures told { OfFile S.PageSource source.old (λ file.
        Salvages file (record { table = schema.now; kind = kind; given = index })
        (counts_of S.PageSource source.old) (counts_of S.PageSource source.new) result
        (record { sink = O.written sink.old; losses = E.written losses.old })
        (record { sink = O.written sink.new; losses = E.written losses.new })) }
    ensures over { SalvagesOver S.PageSource O.ByteSink E.ByteSink source.old source.new sink.old sink.new
        losses.old losses.new steps.old steps.new result }
    ensures steps { TakesSteps S.PageSource source.old salvage_steps steps.old steps.new }
    ensures fetches { AsksAtMost S.PageSource source.old source.new salvage_steps }
{
    let wish = Wish {
        kind,
        index,
        heeds: true,
    };
    save_file(alloc, source, schema, wish, sink, losses, steps)
}

/// Salvages as `salvage` does, but a report that fails ends nothing: it gets nothing more.
pub fn salvage_regardless<S: PageSource, O: ByteSink, E: ByteSink, L: Ledger>(
    alloc: Global,
    source: &mut S,
    schema: &Schema,
    kind: RecordKind,
    index: Option<u64>,
    sink: &mut O,
    losses: &mut E,
    steps: &mut Steps<L>,
) -> Result<Saved, SalvageStop>
    ensures told { OfFile S.PageSource source.old (λ file.
        SalvagesRegardless file (record { table = schema.now; kind = kind; given = index })
        (counts_of S.PageSource source.old) (counts_of S.PageSource source.new) (E.faults losses.old)
        (E.faults losses.new) result
        (record { sink = O.written sink.old; losses = E.written losses.old })
        (record { sink = O.written sink.new; losses = E.written losses.new })) }
    ensures over { SalvagesOver S.PageSource O.ByteSink E.ByteSink source.old source.new sink.old sink.new
        losses.old losses.new steps.old steps.new result }
    ensures regardless { result ≢ Err SalvageStop.Losses }
    ensures steps { TakesSteps S.PageSource source.old salvage_steps steps.old steps.new }
    ensures fetches { AsksAtMost S.PageSource source.old source.new salvage_steps }
{
    let wish = Wish {
        kind,
        index,
        heeds: false,
    };
    save_file(alloc, source, schema, wish, sink, losses, steps)
}

/// Goes through the file, page by page. A report that fails ends it after the page in hand, if it is heeded.
fn save_file<S: PageSource, O: ByteSink, E: ByteSink, L: Ledger>(
    alloc: Global,
    source: &mut S,
    schema: &Schema,
    wish: Wish,
    sink: &mut O,
    losses: &mut E,
    steps: &mut Steps<L>,
) -> Result<Saved, SalvageStop>
    ensures told { OfFile S.PageSource source.old (λ file.
        SalvagesHeeding O.ByteSink E.ByteSink wish.heeds file
        (record { table = schema.now; kind = wish.kind; given = wish.index })
        (counts_of S.PageSource source.old) (counts_of S.PageSource source.new) result
        (sink.old, losses.old) (sink.new, losses.new)) }
    ensures over { SalvagesOver S.PageSource O.ByteSink E.ByteSink source.old source.new sink.old sink.new
        losses.old losses.new steps.old steps.new result }
    ensures heeded { result ≡ Err SalvageStop.Losses → wish.heeds ≡ true }
    ensures steps { TakesSteps S.PageSource source.old salvage_steps steps.old steps.new }
    ensures fetches { AsksAtMost S.PageSource source.old source.new salvage_steps }
{
    let Ok(count) = source.pages() else {
        return Err(SalvageStop::Source);
    };
    let pages = count.min(MOST_PAGES);
    let mut page = Page::zeroed(alloc)?;
    let id = clustered_id(source, schema, pages, wish.index, &mut page, steps)?;
    let search = Search::new(alloc, schema, wish.kind, id, pages)?;
    let mut room = Room::new(alloc, schema, page, pages)?;
    save_pages(&mut room, &search, source, wish, sink, losses, steps)
}

/// Goes through the file in a room in which nothing was done yet. The room is lent, since it has many parts, and at
/// each end of a function all that it owns is given back.
fn save_pages<S: PageSource, O: ByteSink, E: ByteSink, L: Ledger>(
    room: &mut Room,
    search: &Search,
    source: &mut S,
    wish: Wish,
    sink: &mut O,
    losses: &mut E,
    steps: &mut Steps<L>,
) -> Result<Saved, SalvageStop>
    requires ready { IsReady S.PageSource source.old search.now room.old }
    requires new { IsNew search.now.pages room.old }
    requires found { OfFile S.PageSource source.old (λ file.
        IsId file search.now.schema.now wish.index search.now.id) }
    ensures told { OfFile S.PageSource source.old (λ file. (before : Counts) → before.faults ≤ S.faults source.old
        → SalvagesHeeding O.ByteSink E.ByteSink wish.heeds file (wanted_of search.now wish.index) before
        (counts_of S.PageSource source.new) result (sink.old, losses.old) (sink.new, losses.new)) }
    ensures over { SalvagesOver S.PageSource O.ByteSink E.ByteSink source.old source.new sink.old sink.new
        losses.old losses.new steps.old steps.new result }
    ensures heeded { result ≡ Err SalvageStop.Losses → wish.heeds ≡ true }
    ensures cost { steps.new ≤ steps.old + 3 * search.now.pages }
{
    for n in 0..search.pages {
        save_page(room, search, source, sink, losses, n, steps)?;
        if ends(wish.heeds, room.unheard) {
            return Err(SalvageStop::Losses);
        }
    }
    if room.buffer.flush(sink).is_err() {
        return Err(SalvageStop::Sink);
    }
    let saved = room.saved;
    report_numbers(losses, &mut room.unheard, saved);
    if ends(wish.heeds, room.unheard) {
        return Err(SalvageStop::Losses);
    }
    Ok(saved)
}

/// Whether a report that failed, or didn't, ends a salvage that heeds it, or not.
fn ends(heeds: bool, unheard: bool) -> bool
    ensures { MatchBool result ((heeds ≡ true) × (unheard ≡ true)) (heeds ≡ true → unheard ≡ false) }
{
    heeds && unheard
}
