//! How many pages all indexes and segments have.

ghost use Rattle.std.specs.Prelude.{◌≡◌, ◌-◌, ◌^◌, ◌<◌, ◌≤◌, ◌==◌, if◌then◌else◌, IfOk, OnErr, Err, All, min, length};
ghost use Rattle.std.specs.Prelude.{sum_by};
ghost use Rattle.tree_layout.specs.Places.{top_size, leaf_size};
ghost use Rattle.row_layout.specs.StoredRow.{stored_at};
ghost use Rattle.row_layout.specs.HoldsValues.{pages_of_stored, stored_in};
ghost use Rattle.space_builder.specs.calls.Order.{IsIndexOrder};
ghost use Rattle.space_builder.specs.calls.Plan.{HaveRows, AreOrders, HasTreeCounts, HasWideLevel, HasValuePages};
ghost use Rattle.space_builder.specs.calls.Plan.{stored_total, FindsPages, FindsPlan};

use crate::clustered::{ClusteredEntries, kept_prefix};
use crate::counts::count_tree;
use crate::laws::{laws_below, picked_entries_are_sorted};
use crate::order::{fields_of_entries, order_of_index};
use crate::places::pages_above;
use crate::secondary::SecondaryEntries;
use page_source::NoMemory;
use row_store::StoredRows;
use schema_text::{Format, Schema};
use space_layout::extents_needed;
use std::alloc::{AllocFailed, Global};
use thiserror::Error;

/// The rows in the order of an index; none for the clustered one.
#[derive(Debug, Drop)]
pub(crate) struct RowOrder {
    pub(crate) rows: Vec<u32>,
}

/// How many pages an index has.
#[derive(Debug, Drop)]
pub(crate) struct IndexPages {
    /// The pages of each level of the index's tree, from the leaves up.
    pub(crate) levels: Vec<u32>,
    /// The pages of the index's segment of upper levels, and of the segment of its leaves.
    pub(crate) top: u32,
    pub(crate) leaf: u32,
}

/// How many pages the indexes and their segments have.
#[derive(Debug, Drop)]
pub(crate) struct SpacePlan {
    pub(crate) indexes: Vec<IndexPages>,
    pub(crate) sizes: Vec<u32>,
}

/// Why there is no plan.
#[derive(Clone, Copy, Debug, PartialEq, Eq, Error)]
pub(crate) enum PlanStop {
    /// The rows need more than 256 extents.
    #[error("the rows need more than 256 extents")]
    Full,
    /// Memory ran out.
    #[error("out of memory")]
    Memory,
}

impl From<NoMemory> for PlanStop {
    ghost use Rattle.space_builder.specs.declared.plan.PlanStop.{PlanStop};

    ghost from_gives = { λ _ stop. stop ≡ PlanStop.Memory };

    fn from(_: NoMemory) -> Self {
        PlanStop::Memory
    }
}

impl<T: Drop> From<AllocFailed<T>> for PlanStop {
    ghost use Rattle.space_builder.specs.declared.plan.PlanStop.{PlanStop};

    ghost from_gives = { λ _ stop. stop ≡ PlanStop.Memory };

    fn from(_: AllocFailed<T>) -> Self {
        PlanStop::Memory
    }
}

/// The pages of the greatest segment in 256 extents, 32 of them in extents of fragments.
const GREATEST: usize = 16_416;

/// The rows in the order of an index.
fn row_order(
    alloc: Global,
    schema: &Schema,
    rows: &StoredRows,
    index: usize,
) -> Result<RowOrder, NoMemory>
    requires { index < length schema.now.indexes }
    ensures { IfOk result (λ order. 0 < index → IsIndexOrder schema.now rows.now index order.rows.items) }
{
    if index == 0 {
        return Ok(RowOrder {
            rows: Vec::new(alloc),
        });
    }
    let order = order_of_index(alloc, schema, rows, index)?;
    Ok(RowOrder { rows: order })
}

/// The rows in the orders of all indexes.
pub(crate) fn row_orders(
    alloc: Global,
    schema: &Schema,
    rows: &StoredRows,
) -> Result<Vec<RowOrder>, NoMemory>
    ensures { IfOk result (λ orders. AreOrders schema.now rows.now orders.items) }
{
    let mut orders = Vec::new(alloc);
    for index in 0..schema.indexes().len() {
        orders.push(row_order(alloc, schema, rows, index)?)?;
    }
    Ok(orders)
}

/// How many pages the levels of the tree of an index have.
fn tree_counts(
    alloc: Global,
    schema: &Schema,
    rows: &StoredRows,
    order: &[u32],
    index: usize,
) -> Result<Vec<usize>, NoMemory>
    requires index { index < length schema.now.indexes }
    requires rows { HaveRows schema.now rows.now }
    requires order { 0 < index → IsIndexOrder schema.now rows.now index order.now }
    ensures { IfOk result (λ counts. HasTreeCounts schema.now rows.now index counts.items) }
{
    laws_below();
    picked_entries_are_sorted();
    let leaf = schema.fields(alloc, index, true)?;
    let node = schema.fields(alloc, index, false)?;
    if index == 0 {
        let entries = ClusteredEntries {
            rows,
            format: schema.format(),
            first_pages: &[],
            starts: &[],
        };
        return count_tree(alloc, &leaf, &node, &entries);
    }
    let fields = fields_of_entries(alloc, schema, index)?;
    let entries = SecondaryEntries {
        rows,
        order,
        fields: &fields,
    };
    count_tree(alloc, &leaf, &node, &entries)
}

/// How many pages a field goes on in.
fn field_pages(format: Format, rows: &StoredRows, r: usize, i: usize) -> usize
    requires row { r < length rows.now }
    requires field { i < length (stored_in rows.now r) }
    ensures { result ≡ pages_of_stored format (stored_at (stored_in rows.now r) i) }
{
    if !rows.is_off(r, i) {
        return 0;
    }
    ((rows.length(r, i) as usize).saturating_sub(kept_prefix(format)) + 16329) / 16330
}

/// How many pages the values of a row go on in.
fn row_pages(format: Format, rows: &StoredRows, r: usize) -> usize
    requires { r < length rows.now }
    ensures { result ≡ min (sum_by (pages_of_stored format) (stored_in rows.now r)) (2 ^ 64 - 1) }
{
    let mut total: usize = 0;
    for i in 0..rows.width(r) {
        total = total.saturating_add(field_pages(format, rows, r, i));
    }
    total
}

/// How many pages all values go on in.
fn value_total(format: Format, rows: &StoredRows) -> usize
    ensures { result ≡ min (stored_total format rows.now) (2 ^ 64 - 1) }
{
    let mut total: usize = 0;
    for r in 0..rows.count() {
        total = total.saturating_add(row_pages(format, rows, r));
    }
    total
}

/// A number of pages that a segment may have.
fn fitting(pages: usize) -> Result<u32, PlanStop>
    ensures ok { IfOk result (λ n. (n ≡ pages) × (n ≤ 16416)) }
    ensures full { OnErr result (16416 < pages) }
{
    if pages > GREATEST {
        return Err(PlanStop::Full);
    }
    Ok(pages as u32)
}

/// The numbers of pages of levels, in 32 bits each.
fn fitting_levels(alloc: Global, counts: &[usize]) -> Result<Vec<u32>, PlanStop>
    ensures same { IfOk result (λ levels. levels.items ≡ counts.now) }
    ensures few { IfOk result (λ levels. All (λ n. n ≤ 16416) levels.items) }
    ensures full { result ≡ Err PlanStop.Full → HasWideLevel counts.now }
{
    let mut levels = Vec::new(alloc);
    for count in counts {
        levels.push(fitting(*count)?)?;
    }
    Ok(levels)
}

/// How many pages of a tree the segment of upper levels has: all but the leaves, and a root that is a leaf.
fn top_size(levels: &[u32]) -> u32
    requires some { 0 < length levels.now }
    requires few { length levels.now ≤ 51 }
    requires small { All (λ n. n ≤ 16416) levels.now }
    ensures { result ≡ top_size levels.now }
{
    if levels.len() == 1 {
        1
    } else {
        pages_above(levels, 0)
    }
}

/// How many pages of a tree the segment of leaves has.
pub(crate) fn leaf_size(levels: &[u32]) -> u32
    requires { 0 < length levels.now }
    ensures { result ≡ leaf_size levels.now }
{
    if levels.len() == 1 { 0 } else { levels[0] }
}

/// How many pages of so many the leaves of an index share their segment with.
fn shared_pages(index: usize, total: usize) -> usize
    ensures { result ≡ (if index == 0 then total else 0) }
{
    if index == 0 { total } else { 0 }
}

/// How many pages an index has, where its leaves share their segment with so many pages of values.
fn index_pages(
    alloc: Global,
    schema: &Schema,
    rows: &StoredRows,
    order: &[u32],
    index: usize,
    values: usize,
) -> Result<IndexPages, PlanStop>
    requires index { index < length schema.now.indexes }
    requires rows { HaveRows schema.now rows.now }
    requires order { 0 < index → IsIndexOrder schema.now rows.now index order.now }
    requires values { HasValuePages schema.now rows.now index values }
    ensures { FindsPages schema.now rows.now index result }
{
    laws_below();
    let counts = tree_counts(alloc, schema, rows, order, index)?;
    let levels = fitting_levels(alloc, &counts)?;
    let top = fitting(top_size(&levels) as usize)?;
    let leaf = fitting((leaf_size(&levels) as usize).saturating_add(values))?;
    Ok(IndexPages { levels, top, leaf })
}

/// How many pages all indexes and segments have.
pub(crate) fn plan_space(
    alloc: Global,
    schema: &Schema,
    rows: &StoredRows,
    orders: &[RowOrder],
) -> Result<SpacePlan, PlanStop>
    requires rows { HaveRows schema.now rows.now }
    requires orders { AreOrders schema.now rows.now orders.now }
    ensures { FindsPlan schema.now rows.now result }
{
    let total = value_total(schema.format(), rows);
    let mut indexes = Vec::new(alloc);
    let mut sizes = Vec::new(alloc);
    for index in 0..schema.indexes().len() {
        let values = shared_pages(index, total);
        let pages = index_pages(alloc, schema, rows, &orders[index].rows, index, values)?;
        sizes.push(pages.top)?;
        sizes.push(pages.leaf)?;
        indexes.push(pages)?;
    }
    if extents_needed(&sizes) > 256 {
        return Err(PlanStop::Full);
    }
    Ok(SpacePlan { indexes, sizes })
}
