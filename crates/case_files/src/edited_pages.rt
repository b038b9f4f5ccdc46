//! Pages by their numbers, and the edits of them.

use crate::edit::{Edit, Frame};
use crate::error::LineError;
use crate::text::{put_hex, put_number};
use fil_frame::{SumKind, crc32c, kind, seal_as};
use page_source::{ByteList, NoMemory, PAGE_SIZE, Page, read_be};
use std::alloc::Global;
use std::collections::BTreeMap;

/// The space id of every file, and the LSN of its pages.
const SPACE: u32 = 23;

const LSN: u64 = 0x1_0000_2F1C;

/// A page that is kept, and whether it was edited since it was sealed.
#[derive(Drop)]
struct Leaf {
    page: Page,
    is_open: bool,
}

/// Some pages of a file, by their numbers.
#[derive(Drop)]
pub struct EditedPages {
    leaves: BTreeMap<u32, Leaf>,
}

impl EditedPages {
    /// No page.
    pub fn new(alloc: Global) -> EditedPages {
        EditedPages {
            leaves: BTreeMap::new(alloc),
        }
    }

    /// The pages of a file of these bytes that aren't all zeros.
    pub fn of_file(alloc: Global, file: &[u8]) -> Result<EditedPages, NoMemory> {
        let mut pages = EditedPages::new(alloc);
        for (n, bytes) in (0..u32::MAX).zip(file.chunks(PAGE_SIZE)) {
            if bytes.iter().any(|byte| *byte != 0) {
                pages.put(alloc, n, bytes)?;
            }
        }
        Ok(pages)
    }

    /// The page with this number, where it is kept.
    pub fn find(&self, n: u32) -> Option<&Page> {
        self.leaves.get(&n).map(|leaf| &leaf.page)
    }

    /// Keeps a page that begins with these bytes, in place of the one with this number.
    pub fn put(&mut self, alloc: Global, n: u32, bytes: &[u8]) -> Result<(), NoMemory> {
        let mut page = Page::zeroed(alloc)?;
        if bytes.len() <= PAGE_SIZE {
            page.put_bytes(0, bytes);
        }
        let is_open = false;
        self.leaves.insert(n, Leaf { page, is_open })?;
        Ok(())
    }

    /// Keeps the pages of other edited pages, each in place of the page with its number.
    pub fn put_all(&mut self, alloc: Global, other: &EditedPages) -> Result<(), NoMemory> {
        for (n, leaf) in &other.leaves {
            self.put(alloc, *n, leaf.page.bytes())?;
        }
        Ok(())
    }

    /// Adds the number of each page, and its checksum.
    pub fn put_pages(&self, text: &mut ByteList) -> Result<(), NoMemory> {
        let mut before = b" | ".as_slice();
        for (n, leaf) in &self.leaves {
            text.extend(before)?;
            put_number(text, u64::from(*n))?;
            text.extend(b" ")?;
            put_hex(text, crc32c(leaf.page.bytes()))?;
            before = b", ";
        }
        Ok(())
    }
}

impl EditedPages {
    /// Makes the edit on the edited pages, over the pages that lie under them.
    pub fn edit(
        &mut self,
        alloc: Global,
        under: &EditedPages,
        edit: &Edit,
    ) -> Result<(), LineError> {
        match edit {
            Edit::Put { page, at, bytes } => {
                put(self.open(alloc, under, *page)?, *at, bytes.bytes())
            }
            Edit::Turn { page, at, bytes } => {
                turn(self.open(alloc, under, *page)?, *at, bytes.bytes())
            }
            Edit::Touch { page } => {
                self.open(alloc, under, *page)?;
                Ok(())
            }
            Edit::Anew { page, kind } => {
                let anew = self.open(alloc, under, *page)?;
                anew.clear();
                seal_as(anew, *page, SPACE, LSN, *kind, SumKind::Crc32);
                Ok(())
            }
            Edit::FreeExtents { page, first, last } => {
                put_free_extents(self.open(alloc, under, *page)?, *page, *first, *last)
            }
            Edit::Seal(frame) => {
                self.seal(*frame);
                Ok(())
            }
        }
    }

    /// Seals the pages that were edited since the last time.
    pub fn seal(&mut self, frame: Frame) {
        for leaf in self.leaves.values_mut() {
            if leaf.is_open {
                if let Frame::Sums(sums) = frame {
                    put_sums(&mut leaf.page, sums);
                }
                leaf.is_open = false;
            }
        }
    }

    /// The page with this number, which counts as edited from now on. If none is kept yet, it is that of the pages
    /// that lie under the edited ones.
    fn open<'a>(
        &'a mut self,
        alloc: Global,
        under: &EditedPages,
        n: u32,
    ) -> Result<&'a mut Page, LineError> {
        if self.find(n).is_none() {
            let bytes: &[u8] = under.find(n).map_or(&[], |page| page.bytes());
            self.put(alloc, n, bytes)?;
        }
        let leaf = self.leaves.get_mut(&n).ok_or(LineError::Place)?;
        leaf.is_open = true;
        Ok(&mut leaf.page)
    }

    /// Changes bits of one byte of a page, where it is kept.
    pub fn flip(&mut self, n: u32, at: usize, bits: u8) -> Result<(), LineError> {
        let leaf = self.leaves.get_mut(&n).ok_or(LineError::Place)?;
        turn(&mut leaf.page, at, &[bits])
    }
}

/// Puts the bytes from byte `at` of the page on.
fn put(page: &mut Page, at: usize, bytes: &[u8]) -> Result<(), LineError> {
    if at > PAGE_SIZE || bytes.len() > PAGE_SIZE - at {
        return Err(LineError::Place);
    }
    page.put_bytes(at, bytes);
    Ok(())
}

/// Changes the bytes from byte `at` of the page on by these, by exclusive-or.
fn turn(page: &mut Page, at: usize, bytes: &[u8]) -> Result<(), LineError> {
    for (place, byte) in (at..PAGE_SIZE).zip(bytes) {
        let old = *page.bytes().get(place).ok_or(LineError::Place)?;
        page.put_bytes(place, &[old ^ *byte]);
    }
    if at > PAGE_SIZE || bytes.len() > PAGE_SIZE - at {
        return Err(LineError::Place);
    }
    Ok(())
}

/// Makes the checksums of a page those of this kind, and the end of its LSN right. The rest of its frame stays.
fn put_sums(page: &mut Page, sums: SumKind) {
    let number = read_be::<4>(page, 4) as u32;
    let space = read_be::<4>(page, 34) as u32;
    let lsn = read_be::<8>(page, 16);
    let kind = kind(page);
    seal_as(page, number, space, lsn, kind, sums);
}

/// The address of the node of an extent on descriptor page `n`, behind the eight bytes of its segment id.
fn node_address(n: u32, extent: Option<u16>) -> [u8; 6] {
    let Some(extent) = extent else {
        return *b"\xFF\xFF\xFF\xFF\0\0";
    };
    let [a, b, c, d] = n.to_be_bytes();
    let [e, f] = extent.saturating_mul(40).saturating_add(158).to_be_bytes();
    [a, b, c, d, e, f]
}

/// Puts the descriptors of these extents of descriptor page `n`, which are free and linked in their order.
fn put_free_extents(page: &mut Page, n: u32, first: u16, last: u16) -> Result<(), LineError> {
    if last > 255 {
        return Err(LineError::Place);
    }
    for extent in first..last + 1 {
        let at = 150 + 40 * usize::from(extent);
        let before = extent.checked_sub(1).filter(|before| *before >= first);
        let after = extent.checked_add(1).filter(|after| *after <= last);
        put(page, at, &[0; 8])?;
        put(page, at + 8, &node_address(n, before))?;
        put(page, at + 14, &node_address(n, after))?;
        put(page, at + 20, b"\0\0\0\x01")?;
        put(page, at + 24, &[0xFF; 16])?;
    }
    Ok(())
}
