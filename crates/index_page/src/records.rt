//! The records of a page, each with the places of its fields.

ghost use Rattle.std.specs.Prelude.{◌≡◌, IfOk};
ghost use Rattle.index_page.specs.Header.{records_of};
ghost use Rattle.index_page.specs.Page.{HasHeader, IsChain, AreSpelled};
ghost use Rattle.index_page.specs.Readings.{AreRead};

use crate::header::record_count;
use crate::layout::INFIMUM;
use column_values::FieldList;
use compact_record::{Located, next_origin};
use page_source::{NoMemory, Page};
use std::alloc::Global;
use std::marker::Model;

/// The records of a page in chain order, with the places of their fields.
#[derive(Debug, Drop)]
pub struct Records {
    items: Vec<Located>,
}

impl Model for Records {
    ghost use Rattle.std.specs.Prelude.{List};
    ghost use Rattle.compact_record.specs.Reading.{Reading};

    ghost Value = { List Reading };

    ghost view = { λ records. records.items.items };
}

impl Records {
    /// Reads the records of a page that was checked. Only memory may run out.
    pub fn of(alloc: Global, page: &Page, fields: &FieldList) -> Result<Records, NoMemory>
        requires header { HasHeader page.now }
        requires chain { IsChain page.now (records_of page.now) }
        requires spelled { AreSpelled page.now fields.now (records_of page.now) }
        ensures { IfOk result (λ records. AreRead page.now fields.now (records_of page.now) records) }
    {
        let members = fields.fields().len() as u32;
        let mut items = Vec::new(alloc);
        let mut origin = next_origin(page, INFIMUM);
        for _ in 0..record_count(page) {
            let mut located = Located::with_room(alloc, members)?;
            located.again(page, origin, fields);
            items.push(located)?;
            origin = next_origin(page, origin);
        }
        Ok(Records { items })
    }

    /// The records, in chain order.
    pub fn items(&self) -> &[Located]
        ensures { result.now ≡ self.now }
    {
        &self.items
    }
}
