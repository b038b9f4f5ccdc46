//! Reads the inodes of a tablespace.

ghost use Rattle.std.specs.Prelude.{◌≡◌, ◌+◌, ◌≤◌, length, IfOk};
ghost use Rattle.page_source.specs.Lists.{flag_in, unmarked};
ghost use Rattle.page_source.specs.Checks.{Answers};
ghost use Rattle.page_source.specs.Calls.{OfFile, StopsOver};
ghost use Rattle.inode_segments.specs.InodeChecks.{AllInodeChecks};
ghost use Rattle.inode_segments.specs.Kept.{AreKept};
ghost use Rattle.inode_segments.specs.Walk.{DescribesFile};

use crate::inodes::Inodes;
use crate::segments::check_segments;
use crate::walk::Lists;
use page_source::{Page, PageSource, Steps, Stop};
use space_header::SpaceHeader;
use std::alloc::Global;
use std::sync::ledger::Ledger;

/// Reads the used inodes by the rules 14 to 19 (fsp0fsp). `fragments` says of each page whether it is a
/// used page of a fragment extent and no system page; a page past its end isn't. Each inode page is
/// fetched once, and where a list loops or leaves the file none is fetched again. `Broken` names the
/// first broken rule and its page; `Source` comes where a fetch failed, and `Memory` where memory ran
/// out.
pub fn read_inodes<S: PageSource, L: Ledger>(
    alloc: Global,
    source: &mut S,
    header: &SpaceHeader,
    fragments: &[bool],
    steps: &mut Steps<L>,
) -> Result<Inodes, Stop>
    requires size { header.now.size ≤ 4194304 }
    requires told { OfFile S.PageSource source.old (λ file. DescribesFile file header.now) }
    ensures exact { OfFile S.PageSource source.old (λ file.
        Answers result (AllInodeChecks file (flag_in fragments.now))) }
    ensures kept { IfOk result (λ inodes. OfFile S.PageSource source.old (λ file. AreKept file inodes)) }
    ensures pages { IfOk result (λ inodes. length inodes.pages ≡ header.now.size) }
    ensures cost { IfOk result (λ inodes. steps.new + unmarked inodes.pages ≤ steps.old + header.now.size) }
    ensures bound { steps.new ≤ steps.old + header.now.size }
    ensures over { StopsOver S.PageSource source.old source.new steps.old steps.new result }
{
    let lists = Lists { header, fragments };
    let mut inodes = Inodes::none(alloc, header.size)?;
    let mut page = Page::zeroed(alloc)?;
    lists.walk_both(source, &mut inodes, &mut page, steps)?;
    check_segments(alloc, &inodes, header.next_segment)?;
    Ok(inodes)
}
