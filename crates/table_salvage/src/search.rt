//! What a salvage looks for.

ghost use Rattle.std.specs.Prelude.{◌≡◌, ◌≤◌, length, IfOk};
ghost use Rattle.schema_text.specs.IndexFields.{leaf_fields};

use column_values::FieldList;
use page_source::NoMemory;
use salvage_model::RecordKind;
use schema_text::Schema;
use std::alloc::Global;

/// What a salvage looks for: the records of a kind of a table, on the leaves with this index id, in a file of which so
/// many pages are looked at.
#[derive(Drop)]
pub(crate) struct Search<'a> {
    pub schema: &'a Schema,
    pub kind: RecordKind,
    pub id: u64,
    pub pages: u32,
    /// The fields of the leaf records of the clustered index.
    pub fields: FieldList,
}

impl<'a> Search<'a> {
    /// A search for these records.
    pub fn new(
        alloc: Global,
        schema: &'a Schema,
        kind: RecordKind,
        id: u64,
        pages: u32,
    ) -> Result<Search<'a>, NoMemory>
        ensures table { IfOk result (λ search. search.schema.now ≡ schema.now) }
        ensures kind { IfOk result (λ search. search.kind ≡ kind) }
        ensures id { IfOk result (λ search. search.id ≡ id) }
        ensures pages { IfOk result (λ search. search.pages ≡ pages) }
        ensures fields { IfOk result (λ search. search.fields ≡ leaf_fields schema.now 0) }
        ensures keys { IfOk result (λ search. search.fields.keys ≤ length search.fields.fields) }
        ensures few { IfOk result (λ search. length search.fields.fields ≤ 128) }
    {
        let indexes = schema.indexes().len();
        let fields = schema.fields(alloc, 0, true)?;
        let _few = (fields.fields().len(), indexes);
        Ok(Search {
            schema,
            kind,
            id,
            pages,
            fields,
        })
    }
}
