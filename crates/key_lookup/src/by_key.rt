//! The line of the row with a key.

ghost use Rattle.std.specs.Prelude.{◌≡◌, ◌≢◌, ◌+◌, ◌≤◌, List, length, None, OnOk, Ok, Err};
ghost use Rattle.page_source.specs.declared.rule.Fault.{Fault};
ghost use Rattle.page_source.specs.Calls.{OfFile};
ghost use Rattle.column_values.specs.declared.value.Value.{Value};
ghost use Rattle.column_values.specs.Order.{Key};
ghost use Rattle.schema_text.specs.Grammar.{IsTable};
ghost use Rattle.schema_text.specs.IndexFields.{leaf_fields};
ghost use Rattle.row_text.specs.Line.{line_of};
ghost use Rattle.tree_walk.specs.Records.{IsRecord};
ghost use Rattle.table_check.specs.First.{TakesSteps, AsksAtMost};
ghost use Rattle.sql_dump.specs.Stops.{Writes, WritesOver};
ghost use Rattle.sql_dump.specs.SomeRows.{GrowsByRows};
ghost use Rattle.sql_dump.specs.Cells.{ReadsRow, CanReadRow, BreaksRow, row_on};
ghost use Rattle.key_lookup.specs.KeyOfText.{SpellsKey, IsNoKey};
ghost use Rattle.key_lookup.specs.LookUp.{row_found};
ghost use Rattle.key_lookup.specs.Room.{IsRoomOf};
ghost use Rattle.key_lookup.specs.Get.{GetsByKey, Gets, TouchesNothing, GetsOver, get_steps, steps_for};

use crate::checked_row::Found;
use crate::in_file::find_in_file;
use crate::key::SearchKey;
use crate::key_text::search_key;
use crate::laws::{schema_is_table, text_spells_one_key};
use crate::room::Room;
use crate::stop::GetStop;
use page_source::{ByteSink, PageSource, Steps};
use schema_text::Schema;
use sql_dump::{WriteStop, put_row};
use std::alloc::Global;
use std::sync::ledger::Ledger;

/// Writes the line of the row that was found on its leaf. Over a file that changed `Broken` names this leaf, or a page
/// of a chain.
fn write_row<S: PageSource, O: ByteSink, L: Ledger>(
    source: &mut S,
    sink: &mut O,
    room: &mut Room,
    found: Found,
    steps: &mut Steps<L>,
) -> Result<(), WriteStop>
    requires record { IsRecord room.old.walk.child (leaf_fields room.old.reader.table 0) found.origin }
    requires told { OfFile S.PageSource source.old (λ file.
        CanReadRow file (row_on room.old.reader.table room.old.walk.child found.origin) found.pages) }
    ensures puts { OfFile S.PageSource source.old (λ file. (row_values : List Value)
        → ReadsRow file (row_on room.old.reader.table room.old.walk.child found.origin) row_values
        → Writes result (O.written sink.old) (O.written sink.new) (line_of room.old.reader.table row_values)) }
    ensures some { OnOk result (GrowsByRows room.old.reader.table (O.written sink.old) (O.written sink.new) 1) }
    ensures broken { (fault : Fault) → result ≡ Err (WriteStop.Broken fault)
        → BreaksRow (row_found room.old.reader.table room.old.walk.child found) fault }
    ensures cost { steps.new ≤ steps.old + found.pages }
    ensures over { WritesOver S.PageSource O.ByteSink source.old source.new sink.old sink.new
        steps.old steps.new result }
{
    let Room {
        walk,
        reader,
        chains,
        ..
    } = room;
    chains.left = found.pages;
    reader.read(&walk.child, found.number, found.origin)?;
    let row = reader.row(&walk.child, found.number);
    put_row(source, sink, &row, chains, steps)
}

/// Finds the row with a key, and writes its line. The room is the caller's, so that it is given back at one place.
pub(crate) fn get_by_key<S: PageSource, O: ByteSink, L: Ledger>(
    alloc: Global,
    source: &mut S,
    schema: &Schema,
    key: &SearchKey,
    room: &mut Room,
    sink: &mut O,
    steps: &mut Steps<L>,
) -> Result<(), GetStop>
    requires room { IsRoomOf schema.now room.old }
    requires table { IsTable schema.now }
    requires same { length key.now ≡ (leaf_fields schema.now 0).keys }
    ensures told { OfFile S.PageSource source.old (λ file.
        GetsByKey O.ByteSink file schema.now key.now result sink.old sink.new) }
    ensures some { OnOk result (GrowsByRows schema.now (O.written sink.old) (O.written sink.new) 1) }
    ensures knows { result ≢ Err GetStop.Refused }
    ensures over { GetsOver S.PageSource O.ByteSink source.old source.new sink.old sink.new
        steps.old steps.new result }
    ensures few { OfFile S.PageSource source.old (λ file.
        steps.new ≤ steps.old + steps_for file schema.now key.now) }
    ensures steps { TakesSteps S.PageSource source.old get_steps steps.old steps.new }
{
    let found = find_in_file(alloc, source, schema, room, key, steps)?;
    let Some(found) = found else {
        return Err(GetStop::Absent);
    };
    write_row(source, sink, room, found, steps)?;
    Ok(())
}

/// Finds the row whose key the text spells, and writes its line. Before the file is touched, a text that is no key's is
/// `Refused`. `Broken` names the first broken check of the head, of the way to the row or of its values, with the page
/// that it is about; nothing was written then. `Absent` is no row, or one with the delete mark. Pages beside the way
/// are neither fetched nor checked (btr0cur). Chains are fetched twice, since they are checked before the line begins.
pub fn get<S: PageSource, O: ByteSink, L: Ledger>(
    alloc: Global,
    source: &mut S,
    schema: &Schema,
    key: &[u8],
    sink: &mut O,
    steps: &mut Steps<L>,
) -> Result<(), GetStop>
    ensures told { OfFile S.PageSource source.old (λ file.
        Gets O.ByteSink file schema.now key.now result sink.old sink.new) }
    ensures some { OnOk result (GrowsByRows schema.now (O.written sink.old) (O.written sink.new) 1) }
    ensures refused { result ≡ Err GetStop.Refused → IsNoKey schema.now key.now }
    ensures first { IsNoKey schema.now key.now
        → TouchesNothing source.old source.new sink.old sink.new steps.old steps.new result }
    ensures over { GetsOver S.PageSource O.ByteSink source.old source.new sink.old sink.new
        steps.old steps.new result }
    ensures few { OfFile S.PageSource source.old (λ file. (sought : Key) → SpellsKey schema.now key.now sought
        → steps.new ≤ steps.old + steps_for file schema.now sought) }
    ensures steps { TakesSteps S.PageSource source.old get_steps steps.old steps.new }
    ensures fetches { AsksAtMost S.PageSource source.old source.new get_steps }
{
    schema_is_table(schema);
    text_spells_one_key();
    let sought = search_key(alloc, schema, key)?;
    let mut room = Room::new(alloc, schema)?;
    get_by_key(alloc, source, schema, &sought, &mut room, sink, steps)
}
