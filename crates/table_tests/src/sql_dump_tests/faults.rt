//! The page and the rule that are named where a row can't be read or written, over a file that tells nothing.

use super::lines::{LEAF, put_one};
use page_source::{ByteList, Page, Rule};
use schema_text::Schema;
use sql_dump::WriteStop;
use std::marker::Brand;
use std::sync::ledger::Blank;
use std::test::Fail;

const TABLE: &[u8] =
    b"table t dynamic\ncolumn id int notnull\ncolumn day date notnull\nclustered root 3 id\n";

/// A month that there isn't, and a record that ends past the page.
#[test]
fn the_leaf_is_named(rt: HostRuntime) -> Result<(), Fail> {
    let alloc = rt.alloc();
    let table = Schema::read(alloc, TABLE)?;
    let mut page = Page::zeroed(alloc)?;
    page.put_bytes(317, &[0x8F, 0xFF, 0xFF]);
    for (origin, rule) in [(300, Rule::Value), (16_375, Rule::RecordSpelling)] {
        assert!(rt; 125 <= origin && origin < 16_384);
        let file = ByteList::new(alloc);
        let (found, _sink) = put_one::<Brand>(
            alloc,
            &table,
            &page,
            origin,
            file,
            0,
            Blank::new(1),
        )?;
        assert!(rt;
            found == Err(WriteStop::Broken(rule.at(LEAF))),
            "at {origin}"
        );
    }
    Ok(())
}
