//! What goes through std's readers and writers, whatever they are. They may tell what they have left or hold, and where
//! they stand; a real file tells none of it.

ghost use Rattle.std.specs.Prelude.{◌≡◌, ◌*◌, ◌/◌, ◌-◌, ◌^◌, ◌≤◌, min, Some, length, IfOk, OnOk, IfSome};
ghost use Rattle.std.specs.Io.KnownBytes.{Appends, ReadConsumes};
ghost use Rattle.page_source.specs.Objects.{TellsPages};
ghost use Rattle.page_source.specs.Pages.{page_size};
ghost use Rattle.page_source.specs.Transfers.{ReadsPage, WritesPage};

use crate::page::{PAGE_SIZE, Page};
use std::io;
use std::io::{Error, ErrorKind, Read, Seek, SeekFrom, Write};

/// Writes the whole piece, in as many turns as the writer needs. A writer that takes nothing fails; a write that a
/// signal interrupts is tried again.
pub fn write_whole<W: Write>(writer: &mut W, piece: &[u8]) -> io::Result<()>
    ensures { OnOk result (Appends (W.contents writer.old) (W.contents writer.new) piece.now) }
{
    writer.write_all(piece)
}

/// One read. If a signal interrupts it, it is tried again.
pub fn read_some<F: Read>(reader: &mut F, buffer: &mut [u8]) -> io::Result<usize>
    ensures bound { IfOk result (λ k. k ≤ length buffer.new) }
    ensures bytes { ReadConsumes (F.remaining reader.old) (F.remaining reader.new) result buffer.new }
{
    for _ in 0..u64::MAX {
        match reader.read(buffer) {
            Err(error) if error.kind() == ErrorKind::Interrupted => {}
            answer => return answer,
        }
    }
    Err(Error::from(ErrorKind::Interrupted))
}

/// Goes to the end of the file, and says where that is.
fn end_of<F: Seek>(file: &mut F) -> io::Result<u64>
    ensures { IfSome (F.stream_position file.old) (λ _.
        IfSome (F.stream_bytes file.old) (λ bytes. IfOk result (λ n. n ≡ length bytes))) }
{
    file.seek(SeekFrom::End(0))
}

fn pages_in(length: u64) -> u32
    ensures { result ≡ min (length / page_size) (2 ^ 32 - 1) }
{
    u32::try_from(length / PAGE_SIZE as u64).unwrap_or(u32::MAX)
}

/// The number of whole pages, or 4,294,967,295 if there are more.
pub fn count_pages<F: Seek>(file: &mut F) -> io::Result<u32>
    ensures { IfSome (F.stream_position file.old) (λ _.
        IfSome (F.stream_bytes file.old) (λ bytes. IfOk result (λ n. TellsPages bytes n))) }
{
    Ok(pages_in(end_of(file)?))
}

/// Goes to page `n`.
fn seek_page<F: Seek>(file: &mut F, n: u32) -> io::Result<u64>
    ensures { OnOk result (IfSome (F.stream_position file.old) (λ _.
        F.stream_position file.new ≡ Some (page_size * n))) }
{
    file.seek(SeekFrom::Start(PAGE_SIZE as u64 * u64::from(n)))
}

/// Makes `page` page `n` of the file.
pub fn read_page<F: Read + Seek>(file: &mut F, n: u32, page: &mut Page) -> io::Result<()>
    ensures { OnOk result (ReadsPage F.stream_position F.remaining file.old file.new n page.new) }
{
    seek_page(file, n)?;
    page.fill_from(file)
}

/// Puts the page where page `n` of the file is.
pub fn write_page<F: Write + Seek>(file: &mut F, n: u32, page: &Page) -> io::Result<()>
    ensures { OnOk result (WritesPage F.stream_position F.contents file.old file.new n page.now) }
{
    seek_page(file, n)?;
    write_whole(file, page.bytes())
}
