//! The secondary indexes beside the kept values of the rows.

ghost use Rattle.std.specs.Prelude.{◌≡◌, ◌+◌, ◌^◌, ◌<◌, ◌≤◌, IfOk, Err, length, drop};
ghost use Rattle.page_source.specs.declared.rule.Fault.{Fault};
ghost use Rattle.page_source.specs.Calls.{OfFile};
ghost use Rattle.table_check.specs.Taken.{leaves_of};
ghost use Rattle.table_check.specs.Trees.{index_count};
ghost use Rattle.cross_index.specs.Cross.{IsSecondary, Names};
ghost use Rattle.cross_index.specs.Stops.{CrossesOver};
ghost use Rattle.cross_index.specs.calls.Broken.{BreaksReading};
ghost use Rattle.cross_index.specs.calls.Compare.{Compares};
ghost use Rattle.cross_index.specs.calls.Indexes.{CanCompareIndex, CanCompareAll, ComparesAll, HasFields};

use crate::ahead::Ahead;
use crate::crossed::CrossStop;
use crate::entries::{Asked, compare_entries};
use crate::gathered::Gathered;
use crate::kept::slots_of;
use crate::order::{Keys, order_of};
use compact_record::Located;
use page_source::{PageSource, Steps};
use schema_text::{Schema, entry_fields};
use std::alloc::Global;
use std::sync::ledger::Ledger;
use table_check::laws::{live_rows_rise, trees_are_walked};
use table_check::{EndsList, LiveRows};
use tree_walk::TreeEnds;
use tree_walk::laws::{leaves_are_sound, rows_can_be_read};

/// A number of this type, as that of a tree's leaves, is below 2^32.
fn has_32_bits(number: u32)
    ensures { number < 2 ^ 32 }
{
    let _ = number;
}

/// Compares the entries of an index with the rows, and answers how many there are.
fn compare_index<S: PageSource, L: Ledger>(
    alloc: Global,
    source: &mut S,
    schema: &Schema,
    index: usize,
    ends: &TreeEnds,
    found: &Gathered,
    steps: &mut Steps<L>,
) -> Result<u64, CrossStop>
    requires index { index < index_count schema.now }
    requires second { 1 ≤ index }
    requires fields { HasFields schema.now found.now }
    requires told { OfFile S.PageSource source.old (λ file.
        CanCompareIndex file schema.now index ends.now found.now) }
    ensures exact { OfFile S.PageSource source.old (λ file. Compares file schema.now index result) }
    ensures named { Names (λ i. i ≡ index) result }
    ensures broken { (fault : Fault) → result ≡ Err (CrossStop.Broken fault) → BreaksReading fault }
    ensures few { OfFile S.PageSource source.old (λ file. IfOk result (λ count. count ≤ 2 ^ 47)) }
    ensures cost { steps.new ≤ steps.old + ends.now.leaves }
    ensures over { CrossesOver S.PageSource source.old source.new steps.old steps.new result }
{
    live_rows_rise();
    rows_can_be_read();
    trees_are_walked();
    leaves_are_sound();
    has_32_bits(ends.leaves);
    let _ = schema.indexes();
    let fields = schema.fields(alloc, index, true)?;
    let own = entry_fields(alloc, schema, &found.at, index)?;
    let slots = slots_of(alloc, &found.kept, &own)?;
    let keys = Keys {
        cells: &found.cells,
        width: found.kept.len(),
        fields: &fields,
        slots: &slots,
    };
    let order = order_of(alloc, &keys, found.count)?;
    let asked = Asked {
        index: index as u32,
        keys,
        order: &order,
    };
    let mut located = Located::with_room(alloc, fields.fields().len() as u32)?;
    let mut ahead = Ahead::new(alloc)?;
    let mut entries = LiveRows::start(alloc, ends)?;
    compare_entries(
        source,
        schema,
        &asked,
        &mut ahead,
        &mut entries,
        &mut located,
        steps,
    )
}

/// Compares the entries of all secondary indexes with the rows, one index after another, and answers how many there
/// are.
pub(crate) fn compare_indexes<S: PageSource, L: Ledger>(
    alloc: Global,
    source: &mut S,
    schema: &Schema,
    ends: &EndsList,
    found: &Gathered,
    steps: &mut Steps<L>,
) -> Result<u64, CrossStop>
    requires count { length ends.now ≡ index_count schema.now }
    requires fields { HasFields schema.now found.now }
    requires told { OfFile S.PageSource source.old (λ file. CanCompareAll file schema.now ends.now found.now) }
    ensures exact { OfFile S.PageSource source.old (λ file. ComparesAll file schema.now result) }
    ensures named { Names (IsSecondary schema.now) result }
    ensures broken { (fault : Fault) → result ≡ Err (CrossStop.Broken fault) → BreaksReading fault }
    ensures cost { steps.new ≤ steps.old + leaves_of (drop 1 ends.now) }
    ensures over { CrossesOver S.PageSource source.old source.new steps.old steps.new result }
{
    let all = ends.items();
    let mut entries = 0u64;
    for index in 1..schema.indexes().len() {
        let here = compare_index(alloc, source, schema, index, &all[index], found, steps)?;
        entries = entries.saturating_add(here);
    }
    Ok(entries)
}
