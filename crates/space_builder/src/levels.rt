//! The pages of a tree, put level by level.

ghost use Rattle.std.specs.Prelude.{◌≡◌, ◌+◌, ◌-◌, ◌≤◌, ◌<◌, ◌&&◌, ◌==◌, not, ◌∷◌, [], true, false, IfOk, OnOk, OnErr};
ghost use Rattle.std.specs.Prelude.{All};
ghost use Rattle.std.specs.Prelude.{◌++◌, length, map};
ghost use Rattle.std.specs.List.{range_with_len};
ghost use Rattle.compact_record.specs.Writing.{size_of_record};
ghost use Rattle.page_packer.specs.Packing.{fits_more};
ghost use Rattle.tree_layout.specs.Division.{divided};
ghost use Rattle.space_builder.specs.layout.TreeSpot.{page_at_spot};
ghost use Rattle.space_builder.specs.calls.Pointing.{pointer_at};
ghost use Rattle.space_builder.specs.calls.TreePlan.{IsPlan, HasRoomFor, fields_in, width_in, pointer_in, laid_pages};
ghost use Rattle.space_builder.specs.calls.TreePlan.{BeginAt, CanPutLevel, CanPutTree, tree_pages};
ghost use Rattle.space_builder.specs.build.Puts.{CanPutAt, PutsPages};
ghost use Rattle.space_builder.specs.calls.MakesRoom.{HasRoomHere, MakesRoom};
ghost use Rattle.space_builder.specs.calls.PutLaws.{PutLaws};

use crate::built::PutStop;
use crate::entries::{Entries, Leaves, Pointer, Pointers};
use crate::laws::pages_are_packed;
use crate::tree_pages::{TreeSpot, put_tree_page};
use crate::tree_plan::TreePlan;
use compact_record::record_size;
use page_packer::Packer;
use page_packer::laws::{entries_are_pushed_in_order, pointers_lead_to_their_pages};
use page_source::{NoMemory, Page, PageStore};
use space_layout::laws::numbers_differ;
use std::alloc::Global;
use tree_layout::laws::{
    counts_need_no_numbers, division_gives_levels, division_goes_on, levels_stand,
    numbers_are_different,
};

/// What is known of pages, numbers and levels.
fn put_laws()
    ensures { PutLaws }
{
    entries_are_pushed_in_order();
    pointers_lead_to_their_pages();
    pages_are_packed();
    numbers_differ();
    numbers_are_different();
    division_goes_on();
    levels_stand();
    division_gives_levels();
    counts_need_no_numbers();
}

/// Room for one page: its records while it is packed, and its bytes.
#[derive(Debug, Drop)]
pub(crate) struct PageRoom {
    pub(crate) packer: Packer,
    pub(crate) page: Page,
}

impl PageRoom {
    /// Room that holds nothing yet.
    pub(crate) fn new(alloc: Global) -> Result<PageRoom, NoMemory> {
        Ok(PageRoom {
            packer: Packer::new(alloc)?,
            page: Page::zeroed(alloc)?,
        })
    }
}

/// Puts the page of the packed records at its spot.
fn put_page<T: PageStore>(store: &mut T, room: &mut PageRoom, spot: TreeSpot) -> Result<(), PutStop>
    requires index { spot.index < 16 }
    requires below { CanPutAt T.PageStore store.old spot.number }
    ensures puts { PutsPages T.PageStore store.old store.new
        ((spot.number, page_at_spot room.old.packer spot) ∷ []) result }
    ensures same { room.new.packer ≡ room.old.packer }
{
    put_tree_page(&mut room.packer, &mut room.page, spot);
    store.put(spot.number, &room.page)?;
    Ok(())
}

/// Adds the entry with which the next page begins.
fn begin_page(starts: &mut Vec<usize>, k: usize) -> Result<(), NoMemory>
    ensures ok { OnOk result (starts.new.items ≡ starts.old.items ++ k ∷ []) }
    ensures err { OnErr result (starts.new.items ≡ starts.old.items) }
{
    starts.push(k)?;
    Ok(())
}

/// Where a record of this size doesn't fit the page, puts it, and begins the next one, with entry `k`.
fn make_room<T: PageStore>(
    store: &mut T,
    room: &mut PageRoom,
    tree: &TreePlan,
    level: u16,
    starts: &mut Vec<usize>,
    k: usize,
    size: usize,
) -> Result<(), PutStop>
    requires { HasRoomHere T.PageStore store.old tree.now level starts.old.items }
    ensures { MakesRoom T.PageStore tree.now level k (fits_more room.old.packer size) store.old store.new
        room.old.packer room.new.packer starts.old.items starts.new.items result }
{
    if room.packer.fits(size) {
        return Ok(());
    }
    put_laws();
    let spot = tree.spot(usize::from(level), (starts.len() - 1) as u32);
    put_page(store, room, spot)?;
    room.packer.begin(level);
    begin_page(starts, k)?;
    Ok(())
}

/// Whether entry `k` of a level has the minimum mark: the first one above the leaves.
fn is_minimum(level: u16, k: usize) -> bool
    ensures { result ≡ (not (level == 0) && (k == 0)) }
{
    level != 0 && k == 0
}

/// Puts the pages of a level, and answers with which entry each begins.
fn put_level<E: Entries, T: PageStore>(
    alloc: Global,
    store: &mut T,
    room: &mut PageRoom,
    entries: &E,
    tree: &TreePlan,
    level: u16,
) -> Result<Vec<usize>, PutStop>
    requires level { CanPutLevel tree.now level (E.entries entries.now) }
    requires room { HasRoomFor T.PageStore store.old tree.now }
    ensures puts { PutsPages T.PageStore store.old store.new
        (laid_pages tree.now level (divided (fields_in tree.now level) (E.entries entries.now))) result }
    ensures begins { IfOk result (λ starts. BeginAt (E.entries entries.now)
        (divided (fields_in tree.now level) (E.entries entries.now)) starts.items) }
{
    put_laws();
    let fields = tree.fields_on(usize::from(level));
    let mut starts = Vec::new(alloc);
    begin_page(&mut starts, 0)?;
    room.packer.begin(level);
    for k in 0..entries.count() {
        let parts = entries.parts(alloc, k)?;
        let size = record_size(fields, &parts);
        make_room(store, room, tree, level, &mut starts, k, size)?;
        room.packer.push(fields, &parts, is_minimum(level, k));
    }
    let spot = tree.spot(usize::from(level), (starts.len() - 1) as u32);
    put_page(store, room, spot)?;
    Ok(starts)
}

/// The pointers to the pages of a level, by the leaf entries with whose keys these begin.
fn pointers_to(
    alloc: Global,
    tree: &TreePlan,
    level: u16,
    firsts: &[usize],
) -> Result<Vec<Pointer>, NoMemory>
    requires plan { IsPlan tree.now }
    requires inside { level < length tree.now.counts.now }
    requires all { length firsts.now ≡ width_in tree.now level }
    ensures { IfOk result (λ pointers. pointers.items
        ≡ map (pointer_in tree.now level firsts.now) (range_with_len 0 (length firsts.now))) }
{
    let mut pointers = Vec::new(alloc);
    for k in 0..tree.counts[usize::from(level)] {
        pointers.push(Pointer {
            first: firsts[k as usize],
            page: tree.number(usize::from(level), k),
        })?;
    }
    Ok(pointers)
}

/// The leaf entries whose keys these pointers have.
fn firsts_of(alloc: Global, pointers: &[Pointer], starts: &[usize]) -> Result<Vec<usize>, NoMemory>
    requires { All (λ s. s < length pointers.now) starts.now }
    ensures { IfOk result (λ firsts. firsts.items ≡ map (λ s. (pointer_at pointers.now s).first) starts.now) }
{
    let mut firsts = Vec::new(alloc);
    for k in 0..starts.len() {
        firsts.push(pointers[starts[k]].first)?;
    }
    Ok(firsts)
}

/// Puts the pages of a tree with these leaf entries, level by level.
pub(crate) fn put_tree<E: Leaves, T: PageStore>(
    alloc: Global,
    store: &mut T,
    room: &mut PageRoom,
    entries: &E,
    tree: &TreePlan,
) -> Result<(), PutStop>
    requires tree { CanPutTree tree.now (E.entries entries.now) }
    requires room { HasRoomFor T.PageStore store.old tree.now }
    ensures { PutsPages T.PageStore store.old store.new (tree_pages tree.now (E.entries entries.now)) result }
{
    put_laws();
    let keys = tree.node.keys() as usize;
    let mut firsts = put_level(alloc, store, room, entries, tree, 0)?;
    for level in 1..tree.counts.len() as u16 {
        let pointers = pointers_to(alloc, tree, level - 1, &firsts)?;
        let above = Pointers::new(entries, keys, &pointers);
        let starts = put_level(alloc, store, room, &above, tree, level)?;
        firsts = firsts_of(alloc, &pointers, &starts)?;
    }
    Ok(())
}
