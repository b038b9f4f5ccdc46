//! The first three pages of a tablespace that is built.

ghost use Rattle.std.specs.Prelude.{◌≢◌, [], ◌∷◌};
ghost use Rattle.space_layout.specs.HeadPages.{header_page};
ghost use Rattle.space_builder.specs.layout.Layout.{system_pages};
ghost use Rattle.space_builder.specs.build.Puts.{PutsPages};
ghost use Rattle.space_builder.specs.calls.Room.{TakesPages};

use crate::built::PutStop;
use page_source::{Page, PageStore};
use space_layout::{put_bitmap_page, put_header_page, put_inode_page};

/// Puts the page of inodes and the bitmap page.
pub(crate) fn put_system_pages<T: PageStore>(
    store: &mut T,
    page: &mut Page,
    sizes: &[u32],
) -> Result<(), PutStop>
    requires { TakesPages (T.told store.old) sizes.now }
    ensures { PutsPages T.PageStore store.old store.new (system_pages sizes.now) result }
{
    put_inode_page(page, sizes);
    store.put(2, page)?;
    put_bitmap_page(page);
    store.put(1, page)?;
    Ok(())
}

/// Puts the header page.
pub(crate) fn put_head_page<T: PageStore>(
    store: &mut T,
    page: &mut Page,
    sizes: &[u32],
    flags: u32,
) -> Result<(), PutStop>
    requires { TakesPages (T.told store.old) sizes.now }
    ensures puts { PutsPages T.PageStore store.old store.new ((0, header_page sizes.now flags) ∷ []) result }

    // Putting page 0 takes no memory.
    ensures memory { result ≢ Err PutStop.Memory }
{
    put_header_page(page, sizes, flags);
    store.put(0, page)?;
    Ok(())
}
