//! The records of one leaf.

ghost use Rattle.std.specs.Prelude.{◌≡◌, ◌+◌, None};
ghost use Rattle.schema_text.specs.IndexFields.{leaf_fields};
ghost use Rattle.leaf_salvage.specs.Leaf.{LeafChecks};
ghost use Rattle.table_salvage.specs.Ready.{IsReady, IsInHand, IsFound, AreFew, most_rows};
ghost use Rattle.table_salvage.specs.Work.{RowsDone, PagesDone, Goes};
ghost use Rattle.table_salvage.specs.Over.{PartOver, IsPaid};

use crate::records::{FoundRecord, RecordList, is_of};
use crate::report::report_row;
use crate::room::Room;
use crate::search::Search;
use compact_record::next_origin;
use leaf_salvage::laws::whole_leaves_can_be_read;
use page_source::{ByteSink, PageSource, Steps};
use row_salvage::{check_columns, put_saved_row};
use salvage_model::SalvageStop;
use std::sync::ledger::Ledger;

/// Saves a record of the page in hand that is of the kind: what is lost of it is reported, and then its line is put,
/// for which its values are read a second time.
fn save_row<S: PageSource, O: ByteSink, E: ByteSink, L: Ledger>(
    room: &mut Room,
    search: &Search,
    source: &mut S,
    sink: &mut O,
    losses: &mut E,
    found: FoundRecord,
    steps: &mut Steps<L>,
) -> Result<(), SalvageStop>
    requires ready { IsReady S.PageSource source.old search.now room.old }
    requires held { IsInHand S.PageSource source.old search.now room.old found.page }
    requires found { IsFound search.now room.old found }
    requires few { AreFew (found.page + 1) (most_rows found.page + found.place) room.old.saved }
    ensures goes { Goes S.PageSource O.ByteSink E.ByteSink (source.old, sink.old, losses.old)
        (source.new, sink.new, losses.new) room.old room.new search.now result
        (RowsDone found.page found.place) (RowsDone found.page (found.place + 1)) }
    ensures page { room.new.page ≡ room.old.page }
    ensures ready { IsReady S.PageSource source.new search.now room.new }
    ensures few { AreFew (found.page + 1) (most_rows found.page + found.place + 1) room.new.saved }
    ensures paid { IsPaid 0 room.old.marks room.new.marks steps.old steps.new }
    ensures over { PartOver S.PageSource O.ByteSink E.ByteSink (source.old, sink.old, losses.old)
        (source.new, sink.new, losses.new) room.old.unheard room.new.unheard steps.old steps.new result }
{
    room.reader.read(&room.page, found.page, found.origin)?;
    let row = room.reader.row(&room.page, found.page);
    room.chains.left = check_columns(
        source,
        &row,
        search.pages,
        &mut room.marks,
        &mut room.chains.page,
        &mut room.losses,
        steps,
    );
    let number = found.place + 1;
    report_row(
        losses,
        &mut room.unheard,
        search.schema,
        found.page,
        number,
        &room.losses,
    );
    put_saved_row(
        source,
        sink,
        &mut room.buffer,
        &row,
        &room.losses,
        &mut room.chains,
        steps,
    )?;
    if room.losses.is_whole() {
        room.saved.rows += 1;
    } else {
        room.saved.partial += 1;
    }
    Ok(())
}

/// Saves the records of leaf `n`, the page in hand, that are of the kind.
pub(crate) fn save_rows<S: PageSource, O: ByteSink, E: ByteSink, L: Ledger>(
    room: &mut Room,
    search: &Search,
    source: &mut S,
    sink: &mut O,
    losses: &mut E,
    n: u32,
    steps: &mut Steps<L>,
) -> Result<(), SalvageStop>
    requires ready { IsReady S.PageSource source.old search.now room.old }
    requires held { IsInHand S.PageSource source.old search.now room.old n }
    requires is_leaf { LeafChecks room.old.page (leaf_fields search.now.schema.now 0) None }
    requires few { AreFew (n + 1) (most_rows n) room.old.saved }
    ensures goes { Goes S.PageSource O.ByteSink E.ByteSink (source.old, sink.old, losses.old)
        (source.new, sink.new, losses.new) room.old room.new search.now result (RowsDone n 0) (PagesDone (n + 1)) }
    ensures ready { IsReady S.PageSource source.new search.now room.new }
    ensures few { AreFew (n + 1) (most_rows (n + 1)) room.new.saved }
    ensures paid { IsPaid 0 room.old.marks room.new.marks steps.old steps.new }
    ensures over { PartOver S.PageSource O.ByteSink E.ByteSink (source.old, sink.old, losses.old)
        (source.new, sink.new, losses.new) room.old.unheard room.new.unheard steps.old steps.new result }
{
    whole_leaves_can_be_read();
    let list = RecordList::of(&room.page, search.kind);
    let mut origin = list.first;
    for k in 0..list.count {
        if is_of(search.kind, &room.page, origin) {
            let found = FoundRecord {
                page: n,
                place: list.place + k,
                origin,
            };
            save_row(room, search, source, sink, losses, found, steps)?;
        }
        origin = next_origin(&room.page, origin);
    }
    Ok(())
}
