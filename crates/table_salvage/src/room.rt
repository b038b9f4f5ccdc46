//! The memory of a salvage, and the numbers that it keeps.

ghost use Rattle.std.specs.Prelude.{◌≡◌, ℕ, Bool, List, [], false, replicate, length, IfOk};
ghost use Rattle.leaf_salvage.specs.Known.{Knows};
ghost use Rattle.table_salvage.specs.Ready.{IsNew};

use index_page::Scratch;
use leaf_salvage::Descriptors;
use page_source::{NoMemory, Page};
use row_salvage::ColumnLosses;
use salvage_model::Saved;
use schema_text::Schema;
use space_audit::Marks;
use sql_dump::{Buffer, ChainRoom, RowReader};
use std::alloc::Global;
use table_check::MOST_FIELDS;

/// What a salvage works in: three pages, a mark for each page of the file, the room of one record, the buffers of the
/// output, the numbers so far, and whether the report failed.
#[derive(Drop)]
pub(crate) struct Room<'a> {
    pub scratch: Scratch,
    pub descriptors: Descriptors,
    pub reader: RowReader<'a>,
    /// The pages that were looked at as parts of values.
    pub marks: Marks,
    /// The page in hand.
    pub page: Page,
    pub chains: ChainRoom,
    pub buffer: Buffer,
    pub losses: ColumnLosses,
    pub saved: Saved,
    /// Whether the report failed.
    pub unheard: bool,
}

/// Room for the records of a page, and for the values of one of them.
fn record_room(alloc: Global, schema: &Schema) -> Result<(Scratch, RowReader<'_>), NoMemory>
    ensures { IfOk result (λ room. (room.0 ≡ 128) × (room.1.table ≡ schema.now)) }
{
    Ok((
        Scratch::new(alloc, MOST_FIELDS)?,
        RowReader::new(alloc, schema)?,
    ))
}

/// What no page has told yet of so many pages, and a mark for each of them.
fn page_room(alloc: Global, pages: u32) -> Result<(Descriptors, Marks), NoMemory>
    ensures { IfOk result (λ room. ((file : List ℕ) (missed : ℕ → Bool) → Knows file missed 0 room.0)
        × (room.1 ≡ replicate pages false)) }
{
    Ok((Descriptors::new(alloc)?, Marks::new(alloc, pages)?))
}

/// The buffer of the output, and what a row lost.
fn line_room(alloc: Global, schema: &Schema) -> Result<(Buffer, ColumnLosses), NoMemory>
    ensures { IfOk result (λ room. (room.0.bytes ≡ []) × (length room.1 ≡ length schema.now.columns)) }
{
    Ok((Buffer::new(alloc)?, ColumnLosses::new(alloc, schema)?))
}

impl<'a> Room<'a> {
    /// The room for a table, in a file of which so many pages are looked at, with a page to read them into.
    pub fn new(
        alloc: Global,
        schema: &'a Schema,
        page: Page,
        pages: u32,
    ) -> Result<Room<'a>, NoMemory>
        ensures new { IfOk result (λ room. IsNew pages room) }
        ensures reader { IfOk result (λ room. room.reader.table ≡ schema.now) }
        ensures scratch { IfOk result (λ room. room.scratch ≡ 128) }
        ensures losses { IfOk result (λ room. length room.losses ≡ length schema.now.columns) }
    {
        // what has most parts comes last, since at each `?` all that is in hand is given back
        let lines = line_room(alloc, schema)?;
        let chains = ChainRoom::new(alloc, 0)?;
        let met = page_room(alloc, pages)?;
        let records = record_room(alloc, schema)?;
        let (scratch, reader) = records;
        let (descriptors, marks) = met;
        let (buffer, losses) = lines;
        Ok(Room {
            scratch,
            descriptors,
            reader,
            marks,
            page,
            chains,
            buffer,
            losses,
            saved: Saved {
                rows: 0,
                partial: 0,
                leaves: 0,
                lost: 0,
            },
            unheard: false,
        })
    }
}
