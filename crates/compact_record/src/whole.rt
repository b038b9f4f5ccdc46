//! Whether the values of a record lie whole on its page.

ghost use Rattle.std.specs.Prelude.{◌↔◌, IsTrue};
ghost use Rattle.compact_record.specs.Reading.{IsHeapOrigin};
ghost use Rattle.compact_record.specs.Whole.{LiesWhole};

use crate::field::{lengths_top, read_field, storage_at};
use crate::places::{lengths_with, nulls_with};
use column_values::FieldList;
use page_source::Page;

/// Whether no field of the record at this origin goes on elsewhere, and none has more bytes than its type takes.
pub fn lies_whole(page: &Page, origin: usize, fields: &FieldList) -> bool
    requires { IsHeapOrigin origin }
    ensures { IsTrue result ↔ LiesWhole page.now fields.now origin }
{
    let count = fields.fields().len();
    let top = lengths_top(origin, fields);
    let mut nulls = 0;
    let mut lengths = 0;
    for i in 0..count {
        let stored = storage_at(fields, i);
        if !stored.nullable && !stored.variable {
            continue;
        }
        let read = read_field(page, origin, fields, i, nulls, top, lengths);
        if read.external || read.length > stored.length {
            return false;
        }
        nulls = nulls_with(fields, i, nulls);
        lengths = lengths_with(page, origin, fields, i, read.null, read.long, lengths);
    }
    true
}
