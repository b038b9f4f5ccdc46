//! The command `build`: a tablespace from the lines of its rows, and then the line of the numbers.

ghost use Rattle.std.specs.Prelude.{◌≡◌};
ghost use Rattle.page_source.specs.Calls.{Puts};
ghost use Rattle.page_source.specs.Objects.{IsFresh};
ghost use Rattle.ibd_cli.specs.Build.{ServesBuild, built_line};

use crate::laws::built_files_dump_as_read;
use crate::status::Status;
use command_line::read_schema;
use itoa::Buffer;
use page_source::{ByteSink, ByteSource, Failed, PageStore, Steps, put_pieces};
use schema_text::laws::{has_one_schema, texts_pass};
use space_builder::laws::a_build_has_one_outcome;
use space_builder::{Built, build};
use std::alloc::Global;
use std::sync::ledger::Ledger;

/// Reads the schema text, builds the tablespace of the rows in the target, and puts how many pages and rows it has.
pub fn build_file<Q: ByteSource, R: ByteSource, O: ByteSink, T: PageStore, L: Ledger>(
    alloc: Global,
    schema: &mut Q,
    rows: &mut R,
    out: &mut O,
    target: &mut T,
    steps: &mut Steps<L>,
) -> Status
    requires fresh { IsFresh (T.told target.old) }
    ensures builds { ServesBuild
        (record { schema = Q.ByteSource; rows = R.ByteSource; out = O.ByteSink; target = T.PageStore })
        (record { schema = schema.old; rows = rows.old; out = out.old; target = target.old })
        (record { schema = schema.new; rows = rows.new; out = out.new; target = target.new }) result }
    ensures steps { steps.new ≡ steps.old }
{
    // A schema text is that of one table, a table and a text have one outcome, and what is built is dumped as the text.
    has_one_schema();
    texts_pass();
    a_build_has_one_outcome();
    built_files_dump_as_read();
    match read_schema(alloc, schema) {
        Ok(table) => match build(alloc, rows, &table, target, steps) {
            Ok(built) => match put_built(out, &built) {
                Ok(()) => Status::Done,
                Err(Failed) => Status::SinkFault,
            },
            Err(stop) => Status::from(stop),
        },
        Err(stop) => Status::from(stop),
    }
}

fn put_built<O: ByteSink>(out: &mut O, built: &Built) -> Result<(), Failed>
    ensures { Puts O.ByteSink out.old out.new (built_line built.now.pages built.now.rows) result }
{
    let mut pages = Buffer::new();
    let mut rows = Buffer::new();
    let pieces = [
        b"pages=".as_slice(),
        pages.format(built.pages).as_bytes(),
        b" rows=",
        rows.format(built.rows).as_bytes(),
        b"\n",
    ];
    put_pieces(out, &pieces)
}
