//! The row with a key in a file: the head, the way and the values.

ghost use Rattle.std.specs.Prelude.{◌≡◌, ◌+◌, ◌≤◌, IfOk, IfSome, length};
ghost use Rattle.page_source.specs.Checks.{Answers};
ghost use Rattle.page_source.specs.Calls.{OfFile, StopsOver};
ghost use Rattle.schema_text.specs.TableDef.{index_at};
ghost use Rattle.schema_text.specs.IndexFields.{leaf_fields, node_fields};
ghost use Rattle.tree_walk.specs.Index.{root_level};
ghost use Rattle.tree_walk.specs.Records.{IsRecord};
ghost use Rattle.table_check.specs.Trees.{clustered_tree};
ghost use Rattle.table_check.specs.First.{TakesSteps};
ghost use Rattle.key_lookup.specs.Record.{found_row, found_pages};
ghost use Rattle.key_lookup.specs.GetFirst.{GetFirst};
ghost use Rattle.key_lookup.specs.Get.{get_steps};
ghost use Rattle.key_lookup.specs.LookUp.{IsFound, pages_found};
ghost use Rattle.key_lookup.specs.Room.{IsRoomOf};

use crate::checked_row::{Found, find_and_check};
use crate::key::SearchKey;
use crate::room::Room;
use crate::tree::Tree;
use extent_map::check_head;
use page_source::{PageSource, Steps, Stop};
use schema_text::Schema;
use space_audit::Marks;
use std::alloc::Global;
use std::sync::ledger::Ledger;

/// The root of the clustered index.
fn root_of(schema: &Schema) -> u32
    ensures { result ≡ (index_at schema.now 0).root }
{
    schema.indexes()[0].root
}

/// Finds the row of a table with a key that has no delete mark, by the checks of the head, of the way to it and of its
/// values. The leaf of the row is the page in hand then.
pub(crate) fn find_in_file<S: PageSource, L: Ledger>(
    alloc: Global,
    source: &mut S,
    schema: &Schema,
    room: &mut Room,
    key: &SearchKey,
    steps: &mut Steps<L>,
) -> Result<Option<Found>, Stop>
    requires room { IsRoomOf schema.now room.old }
    requires same { length key.now ≡ (node_fields schema.now 0).keys }
    ensures exact { OfFile S.PageSource source.old (λ file. Answers result (GetFirst file schema.now key.now)) }
    ensures found { IfOk result (λ found. OfFile S.PageSource source.old (λ file.
        IsFound (clustered_tree file schema.now) key.now room.new.walk.child found)) }
    ensures readable { IfOk result (λ found. IfSome found (λ row.
        IsRecord room.new.walk.child (leaf_fields schema.now 0) row.origin)) }
    ensures reader { room.new.reader.table ≡ schema.now }
    ensures steps_if_told { OfFile S.PageSource source.old (λ file.
        let index = clustered_tree file schema.now in
        steps.new ≤ steps.old + root_level index + 2 + length (found_pages index (found_row index key.now))) }
    ensures few { IfOk result (λ found. TakesSteps S.PageSource source.old get_steps steps.old
        (steps.new + pages_found found)) }
    ensures cost { TakesSteps S.PageSource source.old get_steps steps.old steps.new }
    ensures over { StopsOver S.PageSource source.old source.new steps.old steps.new result }
{
    let Room {
        leaf,
        node,
        walk,
        chains,
        ..
    } = room;
    let header = check_head(source, schema.flags(), &mut walk.child, steps)?;
    let mut marks = Marks::new(alloc, header.size)?;
    let tree = Tree {
        header: &header,
        root: root_of(schema),
        leaf,
        node,
    };
    Ok(find_and_check(
        walk,
        source,
        &tree,
        key,
        &mut marks,
        &mut chains.page,
        steps,
    )?)
}
