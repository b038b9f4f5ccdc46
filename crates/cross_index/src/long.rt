//! Values that go on in pages of their own, read whole.

ghost use Rattle.std.specs.Prelude.{◌≡◌, ◌+◌, ◌≤◌, ◌++◌, length, OnOk};
ghost use Rattle.page_source.specs.Calls.{OfFile};
ghost use Rattle.offpage_chain.specs.Chain.{chain_pages};
ghost use Rattle.offpage_chain.specs.Reference.{reference_of};
ghost use Rattle.sql_dump.specs.Long.{CanFollowIn, chain_bytes, whole_bytes};
ghost use Rattle.cross_index.specs.Stops.{CrossesOver, OnlyReads};
ghost use Rattle.cross_index.specs.calls.Broken.{BreaksAt, BreaksChain};

use crate::crossed::CrossStop;
use offpage_chain::layout::PART_START;
use offpage_chain::{ChainReader, Reference};
use page_source::{NoMemory, Page, PageSource, Steps};
use std::sync::ledger::Ledger;
use table_check::split_local;

/// A page for the parts of chains, how many may still be fetched, and the value that was read last.
#[derive(Debug, Drop)]
pub(crate) struct Room {
    pub(crate) page: Page,
    pub(crate) left: u32,
    pub(crate) value: Vec<u8>,
}

/// Adds bytes to a value.
fn append(value: &mut Vec<u8>, bytes: &[u8]) -> Result<(), NoMemory>
    ensures { OnOk result (value.new.items ≡ value.old.items ++ bytes.now) }
{
    value.extend_from_slice(bytes)?;
    Ok(())
}

/// Adds the bytes of a chain to the value.
fn read_chain<S: PageSource, L: Ledger>(
    source: &mut S,
    reference: &Reference,
    room: &mut Room,
    steps: &mut Steps<L>,
) -> Result<(), CrossStop>
    requires told { OfFile S.PageSource source.old (λ file. CanFollowIn file reference.now room.old.left) }
    ensures value { OnOk result (OfFile S.PageSource source.old (λ file.
        room.new.value.items ≡ room.old.value.items ++ chain_bytes file reference.now)) }
    ensures left { OnOk result (OfFile S.PageSource source.old (λ file.
        room.new.left + length (chain_pages file reference.now) ≡ room.old.left)) }
    ensures exact { OfFile S.PageSource source.old (λ file. OnlyReads result) }
    ensures broken { BreaksAt BreaksChain result }
    ensures cost { steps.new + room.new.left ≡ steps.old + room.old.left }
    ensures over { CrossesOver S.PageSource source.old source.new steps.old steps.new result }
{
    let mut reader = ChainReader::new(reference);
    while let Some(length) = reader.part(source, &mut room.page, &mut room.left, steps)? {
        append(
            &mut room.value,
            &room.page.bytes()[PART_START..PART_START + length],
        )?;
    }
    Ok(())
}

/// Reads the value that begins with these local bytes and goes on elsewhere.
pub(crate) fn read_long<S: PageSource, L: Ledger>(
    source: &mut S,
    local: &[u8],
    room: &mut Room,
    steps: &mut Steps<L>,
) -> Result<(), CrossStop>
    requires refers { 20 ≤ length local.now }
    requires told { OfFile S.PageSource source.old (λ file. CanFollowIn file (reference_of local.now) room.old.left) }
    ensures value { OnOk result (OfFile S.PageSource source.old (λ file.
        room.new.value.items ≡ whole_bytes file local.now)) }
    ensures left { OnOk result (OfFile S.PageSource source.old (λ file.
        room.new.left + length (chain_pages file (reference_of local.now)) ≡ room.old.left)) }
    ensures exact { OfFile S.PageSource source.old (λ file. OnlyReads result) }
    ensures broken { BreaksAt BreaksChain result }
    ensures cost { steps.new + room.new.left ≡ steps.old + room.old.left }
    ensures over { CrossesOver S.PageSource source.old source.new steps.old steps.new result }
{
    let (front, reference) = split_local(local);
    room.value.clear();
    append(&mut room.value, front)?;
    read_chain(source, &reference, room, steps)
}
