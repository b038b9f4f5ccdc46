//! What comes of one page.

ghost use Rattle.std.specs.Prelude.{◌+◌, ◌<◌};
ghost use Rattle.table_salvage.specs.Ready.{IsReady, AreFew, most_rows};
ghost use Rattle.table_salvage.specs.Work.{PagesDone, Goes};
ghost use Rattle.table_salvage.specs.Over.{PartOver, IsPaid};

use crate::report::{report_broken, report_unread};
use crate::room::Room;
use crate::rows::save_rows;
use crate::search::Search;
use leaf_salvage::{Verdict, leaf_verdict};
use page_source::{ByteSink, PageSource, Steps};
use salvage_model::SalvageStop;
use std::sync::ledger::Ledger;

/// Saves what there is on page `n`, after the pages below it: nothing where it is free, or no leaf of the index with
/// this id; the records of a leaf that are of the kind. A page that is lost is reported.
pub(crate) fn save_page<S: PageSource, O: ByteSink, E: ByteSink, L: Ledger>(
    room: &mut Room,
    search: &Search,
    source: &mut S,
    sink: &mut O,
    losses: &mut E,
    n: u32,
    steps: &mut Steps<L>,
) -> Result<(), SalvageStop>
    requires ready { IsReady S.PageSource source.old search.now room.old }
    requires below { n < search.now.pages }
    requires few { AreFew n (most_rows n) room.old.saved }
    ensures goes { Goes S.PageSource O.ByteSink E.ByteSink (source.old, sink.old, losses.old)
        (source.new, sink.new, losses.new) room.old room.new search.now result (PagesDone n) (PagesDone (n + 1)) }
    ensures ready { IsReady S.PageSource source.new search.now room.new }
    ensures few { AreFew (n + 1) (most_rows (n + 1)) room.new.saved }
    ensures paid { IsPaid 1 room.old.marks room.new.marks steps.old steps.new }
    ensures over { PartOver S.PageSource O.ByteSink E.ByteSink (source.old, sink.old, losses.old)
        (source.new, sink.new, losses.new) room.old.unheard room.new.unheard steps.old steps.new result }
{
    if room.descriptors.is_unused(n) {
        return Ok(());
    }
    if source.fetch(n, &mut room.page, steps).is_err() {
        room.descriptors.miss(n);
        room.saved.lost += 1;
        report_unread(losses, &mut room.unheard, n);
        return Ok(());
    }
    room.descriptors.learn(n, &room.page);
    match leaf_verdict(&mut room.scratch, &room.page, n, search.id, &search.fields) {
        Verdict::Other => Ok(()),
        Verdict::Lost(rule) => {
            room.saved.lost += 1;
            report_broken(losses, &mut room.unheard, n, rule);
            Ok(())
        }
        Verdict::Leaf => {
            room.saved.leaves += 1;
            save_rows(room, search, source, sink, losses, n, steps)
        }
    }
}
