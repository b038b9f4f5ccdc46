//! A schema's parts, texts that are refused, and texts that were printed. Other texts are lines of the crate `cases`.

mod fields;

ghost use Rattle.schema_text.specs.Laws.{IsReadBack};

use schema_text::laws::texts_read_back;
use schema_text::{Schema, SchemaError, SchemaWhy};
use std::alloc::Global;
use std::test::Fail;

const TWO_COLUMNS: [u8; 90] =
    *b"table t dynamic\ncolumn a int notnull\ncolumn b bigint unsigned notnull\nclustered root 30 b\n";

#[test]
fn reads_each_part(rt: HostRuntime) -> Result<(), Fail> {
    let alloc = rt.alloc();
    let schema = Schema::read(alloc, &TWO_COLUMNS)?;
    let parts = format!(in alloc;
        "{:?} {:?} {} {:?} {:?} {:?}",
        schema.table(),
        schema.format(),
        schema.flags(),
        schema.columns(),
        schema.indexes(),
        schema.indexes().first().map(|index| index.columns.items())
    )?;
    assert!(rt;
        parts.as_str()
            == "[116] Dynamic 33 \
        [Column { name: ByteList { bytes: [97] }, kind: Int { width: 4, signed: true }, nullable: false }, \
        Column { name: ByteList { bytes: [98] }, kind: Int { width: 8, signed: false }, nullable: false }] \
        [IndexDef { name: ByteList { bytes: [] }, root: 30, columns: ColumnList { positions: [1] }, line: 4 }] \
        Some([1])"
    );
    Ok(())
}

#[test]
fn names_the_bad_line(rt: HostRuntime) -> Result<(), Fail> {
    let table: [(&[u8], u32, SchemaWhy); 3] = [
        (b"table t dynamic", 1, SchemaWhy::End),
        (
            b"table t dynamic\ncolumn id integer notnull\n",
            2,
            SchemaWhy::Form,
        ),
        (
            b"table t dynamic\ncolumn id int notnull\nclustered root 3 id\nindex i root 3 id\n",
            4,
            SchemaWhy::Root,
        ),
    ];
    for (text, wanted, reason) in table {
        let answer = Schema::read(rt.alloc(), text);
        assert!(rt;
            matches!(answer, Err(SchemaError::Refused { line, why }) if line == wanted && why == reason),
            "{text:?}"
        );
    }
    Ok(())
}

fn read_again(alloc: Global, schema: &Schema) -> Result<Schema, SchemaError>
    ensures { IsReadBack schema.now result }
{
    texts_read_back();
    let _ = schema.columns();
    let text = schema.print(alloc)?;
    Schema::read(alloc, text.bytes())
}

#[test]
fn reads_what_was_printed(rt: HostRuntime) -> Result<(), Fail> {
    let alloc = rt.alloc();
    let text = b"table orders compact\ncolumn id int unsigned notnull\ncolumn who varchar 40 null\n\
        column at timestamp 3 notnull\nclustered root 3\nindex by_who root 40 who at\nindex at root 5 at\n"
        .as_slice();
    let schema = Schema::read(alloc, text)?;
    let again = read_again(alloc, &schema)?;
    assert!(rt; again.print(alloc)?.bytes() == text);
    Ok(())
}
