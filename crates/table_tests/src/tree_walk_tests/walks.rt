//! Walks over the files of the plans.

ghost use Rattle.std.specs.Prelude.{◌≡◌, ◌<◌, ◌∷◌, [], length, IfOk, true, false};
ghost use Rattle.column_values.specs.declared.kind.ColumnType.TheVariants as types;
ghost use Rattle.column_values.specs.declared.field.FieldType.TheVariants as fields;
ghost use Rattle.page_source.specs.Calls.{OfFile};
ghost use Rattle.space_audit.specs.Space.{IsAuditOf};
ghost use Rattle.tree_walk.specs.Room.{CanWalk};

use column_values::{ColumnType, Field, FieldList, FieldType};
use page_source::{Halt, NoMemory, PageSource, Steps, Stop};
use space_audit::{Marks, Space, audit};
use std::alloc::Global;
use std::sync::ledger::{Blank, Ledger};
use tree_walk::{TreeEnds, Walk, walk_tree};

const KEY: Field = Field {
    kind: FieldType::Column(ColumnType::Int {
        width: 4,
        signed: true,
    }),
    nullable: false,
    may_leave: false,
};

fn hidden(kind: FieldType) -> Field
    ensures { result ≡ record { kind = kind; nullable = false; may_leave = false } }
{
    Field {
        kind,
        nullable: false,
        may_leave: false,
    }
}

/// The audit of a file.
pub fn audited<F: PageSource, L: Ledger>(
    alloc: Global,
    file: &mut F,
    blank: Blank,
) -> Result<Space, Stop>
    requires name { blank.name ≡ L.name }
    requires parts { blank.parts ≡ L.parts }
    requires shared { 0 < blank.parts }
    ensures { IfOk result (λ space. OfFile F.PageSource file.new (λ bytes. IsAuditOf bytes space)) }
{
    let mut steps = Steps::<L>::new(blank);
    audit(alloc, file, 33, &mut steps)
}

fn leaf_list(alloc: Global) -> Result<FieldList, NoMemory>
    ensures { IfOk result (λ list. list ≡ record {
      fields = record { kind = fields.Column (types.Int 4 true); nullable = false; may_leave = false }
          ∷ record { kind = fields.TrxId; nullable = false; may_leave = false }
          ∷ record { kind = fields.RollPointer; nullable = false; may_leave = false } ∷ [];
      nullable = 0;
      keys = 1;
    }) }
{
    let mut list = FieldList::new(alloc, 0, 1);
    list.push(KEY)?;
    list.push(hidden(FieldType::TrxId))?;
    list.push(hidden(FieldType::RollPointer))?;
    Ok(list)
}

fn node_list(alloc: Global) -> Result<FieldList, NoMemory>
    ensures { IfOk result (λ list. list ≡ record {
      fields = record { kind = fields.Column (types.Int 4 true); nullable = false; may_leave = false }
          ∷ record { kind = fields.Child; nullable = false; may_leave = false } ∷ [];
      nullable = 0;
      keys = 1;
    }) }
{
    let mut list = FieldList::new(alloc, 0, 1);
    list.push(KEY)?;
    list.push(hidden(FieldType::Child))?;
    Ok(list)
}

/// What a walk takes of an index of this key: its field lists, the room that it works in, and its marks.
#[derive(Drop)]
struct Rooms {
    leaf: FieldList,
    node: FieldList,
    walk: Walk,
    named: Marks,
    marks: Marks,
}

/// The rooms for a walk through this space, with nothing taken before.
fn rooms_for(alloc: Global, space: &Space) -> Result<Rooms, NoMemory>
    ensures ready { IfOk result (λ rooms. CanWalk rooms.walk rooms.leaf rooms.node) }
    ensures segments { IfOk result (λ rooms. length rooms.named ≡ length space.now.segments) }
    ensures members { IfOk result (λ rooms. length rooms.marks ≡ space.now.size) }
{
    Ok(Rooms {
        leaf: leaf_list(alloc)?,
        node: node_list(alloc)?,
        walk: Walk::new(alloc, 3)?,
        named: Marks::new(alloc, space.segment_count())?,
        marks: Marks::new(alloc, space.size())?,
    })
}

/// The answer of a walk from page 3.
pub fn walked<F: PageSource, L: Ledger>(
    alloc: Global,
    space: &Space,
    file: &mut F,
    blank: Blank,
) -> Result<Result<TreeEnds, Halt>, NoMemory>
    requires audit { OfFile F.PageSource file.old (λ bytes. IsAuditOf bytes space.now) }
    requires name { blank.name ≡ L.name }
    requires parts { blank.parts ≡ L.parts }
    requires shared { 0 < blank.parts }
{
    let mut rooms = rooms_for(alloc, space)?;
    let mut steps = Steps::<L>::new(blank);
    Ok(walk_tree(
        &mut rooms.walk,
        file,
        space,
        3,
        &rooms.leaf,
        &rooms.node,
        &mut rooms.named,
        &mut rooms.marks,
        &mut steps,
    ))
}
