//! A whole tablespace is put.

ghost use Rattle.std.specs.Prelude.{◌≡◌, ◌<◌, length};
ghost use Rattle.page_source.specs.Objects.{IsFresh};
ghost use Rattle.space_builder.specs.layout.Layout.{index_pages, trees_pages, layout_size};
ghost use Rattle.space_builder.specs.build.Puts.{PutsPages};
ghost use Rattle.space_builder.specs.calls.Room.{TakesPages};
ghost use Rattle.space_builder.specs.calls.Space.{IsSpace, OfSpace, IsTreeOf, HasFirstPages, PutsSpace};
ghost use Rattle.space_builder.specs.calls.Space.{leaves_of, pages_behind_head};

use crate::built::PutStop;
use crate::clustered::ClusteredEntries;
use crate::head_pages::{put_head_page, put_system_pages};
use crate::laws::{laws_below, picked_entries_are_sorted, same_pages_give_records};
use crate::levels::{PageRoom, put_tree};
use crate::order::fields_of_entries;
use crate::plan::{RowOrder, SpacePlan, leaf_size};
use crate::secondary::SecondaryEntries;
use crate::tree_plan::TreePlan;
use crate::values::{FirstPages, put_values};
use page_source::{Page, PageStore};
use row_layout::laws::fitted_rows_are_rows;
use row_store::StoredRows;
use schema_text::Schema;
use space_header::layout::EXTENT_PAGES;
use space_layout::extents_needed;
use std::alloc::Global;

/// A tablespace that is to be put: its schema, its rows, their orders in the indexes, and how many pages it has.
#[derive(Clone, Copy)]
pub(crate) struct Space<'a> {
    pub(crate) schema: &'a Schema,
    pub(crate) rows: &'a StoredRows,
    pub(crate) orders: &'a [RowOrder],
    pub(crate) plan: &'a SpacePlan,
}

impl Space<'_> {
    /// Puts the pages of the clustered index.
    fn put_clustered<T: PageStore>(
        &self,
        alloc: Global,
        store: &mut T,
        room: &mut PageRoom,
        tree: &TreePlan,
        first_pages: &FirstPages,
    ) -> Result<(), PutStop>
        requires space { IsSpace self.now }
        requires tree { IsTreeOf self.now 0 tree.now }
        requires first { HasFirstPages self.now first_pages.now }
        requires takes { TakesPages (T.told store.old) self.now.plan.now.sizes.items }
        ensures { OfSpace self.now (λ rows.
            PutsPages T.PageStore store.old store.new (index_pages self.now.schema.now rows 0) result) }
    {
        laws_below();
        same_pages_give_records();
        fitted_rows_are_rows();
        let entries = ClusteredEntries {
            rows: self.rows,
            format: self.schema.format(),
            first_pages: &first_pages.pages,
            starts: &first_pages.starts,
        };
        put_tree(alloc, store, room, &entries, tree)
    }

    /// Puts the pages of index `j`, another one.
    fn put_secondary<T: PageStore>(
        &self,
        alloc: Global,
        store: &mut T,
        room: &mut PageRoom,
        tree: &TreePlan,
        j: usize,
    ) -> Result<(), PutStop>
        requires space { IsSpace self.now }
        requires second { 0 < j }
        requires index { j < length self.now.schema.now.indexes }
        requires tree { IsTreeOf self.now j tree.now }
        requires takes { TakesPages (T.told store.old) self.now.plan.now.sizes.items }
        ensures { OfSpace self.now (λ rows.
            PutsPages T.PageStore store.old store.new (index_pages self.now.schema.now rows j) result) }
    {
        laws_below();
        picked_entries_are_sorted();
        let fields = fields_of_entries(alloc, self.schema, j)?;
        let entries = SecondaryEntries {
            rows: self.rows,
            order: &self.orders[j].rows,
            fields: &fields,
        };
        put_tree(alloc, store, room, &entries, tree)
    }

    /// Puts the pages of index `j`.
    fn put_index<T: PageStore>(
        &self,
        alloc: Global,
        store: &mut T,
        room: &mut PageRoom,
        first_pages: &FirstPages,
        j: usize,
    ) -> Result<(), PutStop>
        requires space { IsSpace self.now }
        requires index { j < length self.now.schema.now.indexes }
        requires first { HasFirstPages self.now first_pages.now }
        requires takes { TakesPages (T.told store.old) self.now.plan.now.sizes.items }
        ensures { OfSpace self.now (λ rows.
            PutsPages T.PageStore store.old store.new (index_pages self.now.schema.now rows j) result) }
    {
        let leaf = self.schema.fields(alloc, j, true)?;
        let node = self.schema.fields(alloc, j, false)?;
        let tree = TreePlan {
            index: j as u16,
            leaf: &leaf,
            node: &node,
            sizes: &self.plan.sizes,
            counts: &self.plan.indexes[j].levels,
        };
        if j == 0 {
            self.put_clustered(alloc, store, room, &tree, first_pages)
        } else {
            self.put_secondary(alloc, store, room, &tree, j)
        }
    }

    /// Puts the pages of all indexes.
    fn put_trees<T: PageStore>(
        &self,
        alloc: Global,
        store: &mut T,
        first_pages: &FirstPages,
    ) -> Result<(), PutStop>
        requires space { IsSpace self.now }
        requires first { HasFirstPages self.now first_pages.now }
        requires takes { TakesPages (T.told store.old) self.now.plan.now.sizes.items }
        ensures { OfSpace self.now (λ rows.
            PutsPages T.PageStore store.old store.new (trees_pages self.now.schema.now rows) result) }
    {
        laws_below();
        let mut room = PageRoom::new(alloc)?;
        for j in 0..self.schema.indexes().len() {
            self.put_index(alloc, store, &mut room, first_pages, j)?;
        }
        Ok(())
    }

    /// How many leaves the first index has in their segment.
    fn leaves(&self) -> u32
        requires { IsSpace self.now }
        ensures { OfSpace self.now (λ rows. result ≡ leaves_of self.now.schema.now rows) }
    {
        laws_below();
        leaf_size(&self.plan.indexes[0].levels)
    }

    /// Puts all pages but page 0.
    fn put_behind_head<T: PageStore>(
        &self,
        alloc: Global,
        store: &mut T,
        page: &mut Page,
    ) -> Result<(), PutStop>
        requires space { IsSpace self.now }
        requires takes { TakesPages (T.told store.old) self.now.plan.now.sizes.items }
        ensures { OfSpace self.now (λ rows.
            PutsPages T.PageStore store.old store.new (pages_behind_head self.now.schema.now rows) result) }
    {
        laws_below();
        let sizes = &self.plan.sizes;
        let format = self.schema.format();
        let first_pages = put_values(alloc, store, self.rows, format, sizes, self.leaves())?;
        self.put_trees(alloc, store, &first_pages)?;
        put_system_pages(store, page, sizes)
    }

    /// The size of the tablespace in pages.
    pub(crate) fn pages(&self) -> u32
        requires { IsSpace self.now }
        ensures { OfSpace self.now (λ rows. result ≡ layout_size self.now.schema.now rows) }
    {
        laws_below();
        EXTENT_PAGES * extents_needed(&self.plan.sizes)
    }

    /// Sizes the store, and puts all pages, page 0 last.
    pub(crate) fn put<T: PageStore>(&self, alloc: Global, store: &mut T) -> Result<(), PutStop>
        requires space { IsSpace self.now }
        requires fresh { IsFresh (T.told store.old) }
        ensures { OfSpace self.now (λ rows.
            PutsSpace T.PageStore self.now.schema.now rows store.old store.new result) }
    {
        laws_below();
        let sizes = &self.plan.sizes;
        let mut page = Page::zeroed(alloc)?;
        store.set_size(self.pages())?;
        self.put_behind_head(alloc, store, &mut page)?;
        put_head_page(store, &mut page, sizes, self.schema.flags())
    }
}
