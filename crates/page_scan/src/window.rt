//! What is ahead in a window over an image.

ghost use Rattle.std.specs.Prelude.{◌≡◌, ◌<◌, ◌≤◌, length, take, IfOk};
ghost use Rattle.page_source.specs.Faults.{HasCause};
ghost use Rattle.page_scan.specs.Scan.{rest_of};
ghost use Rattle.page_scan.specs.Window.{SeesNext, HasNothingLeft};

use crate::found::page_there;
use crate::scanner::FoundPage;
use page_source::{ByteSource, Failed, PAGE_SIZE, Page};

/// The bytes of a sector.
const SECTOR: usize = 512;

/// How many bytes were passed, and the page that was found.
#[derive(Clone, Copy)]
pub(crate) struct Passed {
    pub bytes: usize,
    pub found: Option<FoundPage>,
}

/// Looks at one sector after another, until a page is found or no whole page is ahead. The page is copied.
pub(crate) fn pass_sectors(ahead: &[u8], page: &mut Page) -> Passed
    ensures within { result.bytes ≤ length ahead.now }
    ensures sees { SeesNext ahead.now result.bytes result.found page.new }
{
    let mut bytes = 0;
    while ahead.len() - bytes >= PAGE_SIZE {
        let found = page_there(ahead, bytes, page);
        bytes += SECTOR;
        if found.is_some() {
            return Passed { bytes, found };
        }
    }
    Passed { bytes, found: None }
}

/// Reads on after the first `came` bytes of the window, until it is full or the source has nothing left.
pub(crate) fn read_on<Q: ByteSource>(
    source: &mut Q,
    window: &mut [u8],
    came: &mut usize,
) -> Result<(), Failed>
    requires { came.old ≤ length window.old }
    ensures within { came.new ≤ length window.new }
    ensures rest { rest_of (take came.new window.new) (Q.left source.new)
        ≡ rest_of (take came.old window.old) (Q.left source.old) }
    ensures ended { IfOk result (λ _. came.new < length window.new
        → HasNothingLeft (Q.left source.old) (Q.left source.new)) }
    ensures cause { HasCause (Q.faults source.old) (Q.faults source.new) result }
{
    while *came < window.len() {
        let count = source.read(&mut window[*came..])?;
        if count == 0 {
            return Ok(());
        }
        *came += count;
    }
    Ok(())
}
