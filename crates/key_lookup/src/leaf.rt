//! The row with a key on its leaf.

ghost use Rattle.std.specs.Prelude.{◌≡◌, ◌≤◌, ℕ, IfSome, length};
ghost use Rattle.tree_walk.specs.Index.{Index, page_in};
ghost use Rattle.tree_walk.specs.Records.{PageFacts, IsRecord, IsHeld};
ghost use Rattle.key_lookup.specs.Leaf.{is_sought, row_at_origin, IsRowOn};

use crate::key::SearchKey;
use column_values::FieldList;
use compact_record::{Located, deleted, next_origin};
use index_page::layout::INFIMUM;
use index_page::record_count;
use page_source::Page;
use std::cmp::Ordering;

/// Whether the record at an origin, which was read, has the key and no delete mark.
fn is_sought(key: &SearchKey, page: &Page, fields: &FieldList, located: &Located, at: usize) -> bool
    requires few { fields.now.keys ≤ length fields.now.fields }
    requires same { length key.now ≡ fields.now.keys }
    requires held { IsHeld page.now fields.now at located.now }
    ensures { (index : Index) (n : ℕ) → page.now ≡ page_in index n → fields.now ≡ index.leaf
        → result ≡ is_sought index key.now (row_at_origin n at) }
{
    key.compare_record(page, fields, located) == Ordering::Equal && !deleted(page, at)
}

/// The record of a leaf that has the key and no delete mark, if there is one.
pub(crate) fn find_row(
    located: &mut Located,
    page: &Page,
    fields: &FieldList,
    key: &SearchKey,
) -> Option<usize>
    requires facts { PageFacts page.now fields.now }
    requires few { fields.now.keys ≤ length fields.now.fields }
    requires same { length key.now ≡ fields.now.keys }
    requires room { length fields.now.fields ≤ located.old.members }
    ensures exact { (index : Index) (n : ℕ) → page.now ≡ page_in index n → fields.now ≡ index.leaf
        → IsRowOn index key.now n result }
    ensures record { IfSome result (λ origin. IsRecord page.now fields.now origin) }
    ensures members { located.new.members ≡ located.old.members }
{
    let mut at = INFIMUM;
    for i in 0..record_count(page) {
        at = next_origin(page, at);
        located.again(page, at, fields);
        if is_sought(key, page, fields, located, at) {
            return Some(at);
        }
    }
    None
}
