//! Tablespaces whose first three pages are these, through an audit.

ghost use Rattle.std.specs.Prelude.{◌≡◌, ◌<◌};

use fil_frame::kinds::{FIL_PAGE_INDEX, FIL_PAGE_TYPE_BLOB};
use fil_frame::seal;
use page_source::{Fails, NoMemory, Page, PageMap, SparsePages, Steps, Stop};
use space_audit::{Space, audit};
use space_layout::{
    extents_needed, is_shape, put_bitmap_page, put_header_page, put_inode_page, segment_page,
};
use std::alloc::Global;
use std::marker::Brand;
use std::sync::ledger::{Blank, Ledger};
use std::test::Fail;

fn audit_in<L: Ledger>(alloc: Global, file: &mut SparsePages, blank: Blank) -> Result<Space, Stop>
    requires name { blank.name ≡ L.name }
    requires parts { blank.parts ≡ L.parts }
    requires shared { 0 < blank.parts }
{
    let mut steps = Steps::<L>::new(blank);
    audit(alloc, file, 33, &mut steps)
}

fn audited(alloc: Global, mut file: SparsePages) -> Result<Space, Stop> {
    audit_in::<Brand>(alloc, &mut file, Blank::new(1))
}

/// Puts a page of a segment.
fn put_segment_page(alloc: Global, held: &mut PageMap, n: u32, kind: u16) -> Result<(), NoMemory> {
    let mut page = Page::zeroed(alloc)?;
    seal(&mut page, n, 1, 1, kind);
    held.put(n, page)
}

/// The tablespace of such segments; none where they have no shape.
fn built(alloc: Global, sizes: &[u32]) -> Result<Option<SparsePages>, NoMemory> {
    if !is_shape(sizes) {
        return Ok(None);
    }
    let mut held = PageMap::new(alloc);
    let mut head = Page::zeroed(alloc)?;
    put_header_page(&mut head, sizes, 33);
    held.put(0, head)?;
    let mut bitmap = Page::zeroed(alloc)?;
    put_bitmap_page(&mut bitmap);
    held.put(1, bitmap)?;
    let mut inodes = Page::zeroed(alloc)?;
    put_inode_page(&mut inodes, sizes);
    held.put(2, inodes)?;
    for s in 0..sizes.len() {
        let kind = if s == 1 {
            FIL_PAGE_TYPE_BLOB
        } else {
            FIL_PAGE_INDEX
        };
        for i in 0..sizes[s] {
            put_segment_page(alloc, &mut held, segment_page(sizes, s, i), kind)?;
        }
    }
    let pages = 64 * extents_needed(sizes);
    Ok(Some(SparsePages::new(pages, held, Fails::of(alloc, &[])?)))
}

/// How many pages the tablespace has and how many are used; none where it isn't sound.
fn counts(alloc: Global, sizes: &[u32]) -> Result<Option<(u32, u32)>, NoMemory> {
    let Some(file) = built(alloc, sizes)? else {
        return Ok(None);
    };
    match audited(alloc, file) {
        Ok(space) => Ok(Some((space.size(), space.used_pages()))),
        Err(_) => Ok(None),
    }
}

/// Numbers of pages of segments, and how many pages the tablespace has and how many are used.
const SHAPES: [(&[u32], u32, u32); 8] = [
    (&[1, 0], 64, 4),
    (&[1, 0, 1, 0], 64, 5),
    (&[1, 28, 1, 31], 64, 64),
    (&[1, 29, 1, 31], 128, 65),
    (&[1, 33], 128, 37),
    (&[1, 96], 128, 100),
    (&[1, 97], 192, 101),
    (&[40, 161, 33, 65, 1, 32], 576, 335),
];

#[test]
fn builds_sound_tablespaces(rt: HostRuntime) -> Result<(), Fail> {
    for (sizes, pages, used) in SHAPES {
        assert!(&rt;
            counts(rt.alloc(), sizes)? == Some((pages, used)),
            "{sizes:?}"
        );
    }
    Ok(())
}

#[test]
fn refuses_what_has_no_shape(rt: HostRuntime) {
    assert!(&rt; !is_shape(&[0, 5]));
    assert!(&rt; !is_shape(&[1]));
    assert!(&rt; is_shape(&[1, 16351]));
    assert!(&rt; !is_shape(&[1, 16353]));
}
