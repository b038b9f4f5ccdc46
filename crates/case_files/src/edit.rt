//! What a case changes on the pages of its file.

use crate::error::LineError;
use crate::hex::bytes_of;
use crate::words::{number, page_number};
use fil_frame::SumKind;
use page_source::ByteList;
use std::alloc::Global;

/// How the pages that were edited are sealed.
#[derive(Clone, Copy)]
pub enum Frame {
    /// Pages are sealed with the end of their LSN, and checksums of this kind.
    Sums(SumKind),
    /// Pages aren't sealed at all.
    AsIs,
}

/// An edit of a page, or of how the pages edited before are sealed.
#[derive(Drop)]
pub enum Edit {
    /// Bytes that stand from a byte on.
    Put {
        page: u32,
        at: usize,
        bytes: ByteList,
    },
    /// Bytes that change the bytes of a page from a byte on, by exclusive-or.
    Turn {
        page: u32,
        at: usize,
        bytes: ByteList,
    },
    /// Nothing, but that the page counts as edited.
    Touch {
        page: u32,
    },
    /// Zeros, with a frame of this type.
    Anew {
        page: u32,
        kind: u16,
    },
    /// The descriptors of extents that are free, linked to each other.
    FreeExtents {
        page: u32,
        first: u16,
        last: u16,
    },
    /// How the pages edited before are sealed.
    Seal(Frame),
}

impl Edit {
    /// The edit that begins with this word: `3:107=03`, `3:26^01`, `3:`, `4:page=10` or `0:free=1-255`.
    pub fn read(alloc: Global, word: &str) -> Result<Edit, LineError> {
        let (page, what) = word.split_once(':').ok_or(LineError::Word)?;
        let page = page_number(page)?;
        if what.is_empty() {
            return Ok(Edit::Touch { page });
        }
        if let Some(kind) = what.strip_prefix("page=") {
            let kind = kind.parse::<u16>().map_err(|_| LineError::Number)?;
            return Ok(Edit::Anew { page, kind });
        }
        if let Some(extents) = what.strip_prefix("free=") {
            return free_extents(page, extents);
        }
        Edit::read_bytes(alloc, page, what)
    }

    /// The edit `107=03` or `26^01` of the page.
    fn read_bytes(alloc: Global, page: u32, what: &str) -> Result<Edit, LineError> {
        let digits = what.bytes().position(|byte| !byte.is_ascii_digit());
        let (at, how) = what
            .split_at_checked(digits.ok_or(LineError::Word)?)
            .ok_or(LineError::Word)?;
        let at = usize::try_from(number(at)?).map_err(|_| LineError::Number)?;
        if let Some(bytes) = how.strip_prefix('=') {
            let bytes = bytes_of(alloc, bytes)?;
            return Ok(Edit::Put { page, at, bytes });
        }
        let bytes = how.strip_prefix('^').ok_or(LineError::Word)?;
        let bytes = bytes_of(alloc, bytes)?;
        Ok(Edit::Turn { page, at, bytes })
    }
}

fn free_extents(page: u32, extents: &str) -> Result<Edit, LineError> {
    let (first, last) = extents.split_once('-').unwrap_or((extents, extents));
    Ok(Edit::FreeExtents {
        page,
        first: first.parse::<u16>().map_err(|_| LineError::Number)?,
        last: last.parse::<u16>().map_err(|_| LineError::Number)?,
    })
}
