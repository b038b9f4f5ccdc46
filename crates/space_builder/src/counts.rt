//! How many pages each level of a tree has, before any page has its number.

ghost use Rattle.std.specs.Prelude.{◌≡◌, ◌<◌, IfOk, OnOk, length};
ghost use Rattle.page_packer.specs.Entries.{entry_at};
ghost use Rattle.tree_layout.specs.Division.{tree_levels, level_counts, CanDivide};
ghost use Rattle.tree_layout.specs.Counting.{weight_of, one_more, cut_leaves};

use crate::entries::{Leaves, Pointer, pointer_parts};
use column_values::FieldList;
use compact_record::record_size;
use page_packer::laws::pointers_lead_to_their_pages;
use page_source::NoMemory;
use std::alloc::Global;
use tree_layout::laws::counts_are_cut;
use tree_layout::{Cut, Weight, count_levels};

/// The size of leaf entry `k`.
fn entry_size<E: Leaves>(
    alloc: Global,
    leaf: &FieldList,
    node: &FieldList,
    entries: &E,
    k: usize,
) -> Result<u16, NoMemory>
    requires divide { CanDivide leaf.now node.now (E.entries entries.now) }
    requires inside { k < length (E.entries entries.now) }
    ensures { IfOk result
        (λ size. size ≡ (weight_of leaf.now node.now (entry_at (E.entries entries.now) k)).size) }
{
    let parts = entries.parts(alloc, k)?;
    Ok(record_size(leaf, &parts) as u16)
}

/// The size of a pointer by its key.
fn pointer_size<E: Leaves>(
    alloc: Global,
    leaf: &FieldList,
    node: &FieldList,
    entries: &E,
    k: usize,
) -> Result<u16, NoMemory>
    requires divide { CanDivide leaf.now node.now (E.entries entries.now) }
    requires inside { k < length (E.entries entries.now) }
    ensures { IfOk result
        (λ size. size ≡ (weight_of leaf.now node.now (entry_at (E.entries entries.now) k)).pointer) }
{
    pointers_lead_to_their_pages();
    let pointer = Pointer { first: k, page: 0 };
    let parts = pointer_parts(alloc, entries, node.keys() as usize, pointer)?;
    Ok(record_size(node, &parts) as u16)
}

/// Adds leaf entry `k`. Only of the first entry of a page the pointer counts.
fn push_entry<E: Leaves>(
    alloc: Global,
    leaf: &FieldList,
    node: &FieldList,
    entries: &E,
    k: usize,
    cut: &mut Cut,
) -> Result<(), NoMemory>
    requires divide { CanDivide leaf.now node.now (E.entries entries.now) }
    requires inside { k < length (E.entries entries.now) }
    ensures { OnOk result
        (cut.new ≡ one_more cut.old (weight_of leaf.now node.now (entry_at (E.entries entries.now) k))) }
{
    let size = entry_size(alloc, leaf, node, entries, k)?;
    let mut pointer = 0;
    if cut.begins(size) {
        pointer = pointer_size(alloc, leaf, node, entries, k)?;
    }
    cut.push(Weight { size, pointer })?;
    Ok(())
}

/// The leaves of these entries, each by the size of the pointer to it.
fn cut_leaves<E: Leaves>(
    alloc: Global,
    leaf: &FieldList,
    node: &FieldList,
    entries: &E,
) -> Result<Vec<u16>, NoMemory>
    requires { CanDivide leaf.now node.now (E.entries entries.now) }
    ensures { IfOk result (λ pages. pages.items ≡ cut_leaves leaf.now node.now (E.entries entries.now)) }
{
    let mut cut = Cut::new(alloc);
    for k in 0..entries.count() {
        push_entry(alloc, leaf, node, entries, k, &mut cut)?;
    }
    cut.pages()
}

/// How many pages each level of the tree of these entries has, from the leaves up.
pub(crate) fn count_tree<E: Leaves>(
    alloc: Global,
    leaf: &FieldList,
    node: &FieldList,
    entries: &E,
) -> Result<Vec<usize>, NoMemory>
    requires { CanDivide leaf.now node.now (E.entries entries.now) }
    ensures { IfOk result (λ counts. counts.items
        ≡ level_counts (tree_levels leaf.now node.now (λ l k. 0) (E.entries entries.now))) }
{
    counts_are_cut();
    let leaves = cut_leaves(alloc, leaf, node, entries)?;
    count_levels(alloc, leaves)
}
