//! The memory of a look-up.

ghost use Rattle.std.specs.Prelude.{IfOk};
ghost use Rattle.schema_text.specs.Grammar.{IsTable};
ghost use Rattle.key_lookup.specs.Room.{IsRoomOf};

use column_values::FieldList;
use page_source::NoMemory;
use schema_text::Schema;
use schema_text::laws::lists_are_of_one_index;
use sql_dump::{ChainRoom, RowReader};
use std::alloc::Global;
use table_check::MOST_FIELDS;
use tree_walk::Walk;

/// What a look-up works in: the fields of the clustered index, the room for the way, that for the row, and that for the
/// chains of its values.
#[derive(Drop)]
pub(crate) struct Room<'a> {
    pub leaf: FieldList,
    pub node: FieldList,
    pub walk: Walk,
    pub reader: RowReader<'a>,
    pub chains: ChainRoom,
}

impl<'a> Room<'a> {
    /// The room for a table.
    pub fn new(alloc: Global, schema: &'a Schema) -> Result<Room<'a>, NoMemory>
        ensures room { IfOk result (λ room. IsRoomOf schema.now room) }
        ensures table { IsTable schema.now }
    {
        lists_are_of_one_index();
        let indexes = schema.indexes().len();
        let leaf = schema.fields(alloc, 0, true)?;
        let node = schema.fields(alloc, 0, false)?;
        let _few = (leaf.fields().len(), node.fields().len(), indexes);
        // what has most parts comes last, since at each `?` all that is in hand is given back
        Ok(Room {
            leaf,
            node,
            reader: RowReader::new(alloc, schema)?,
            chains: ChainRoom::new(alloc, 0)?,
            walk: Walk::new(alloc, MOST_FIELDS)?,
        })
    }
}
