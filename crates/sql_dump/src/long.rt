//! Values that go on in pages of their own, written as they are read.

ghost use Rattle.std.specs.Prelude.{◌≡◌, ◌+◌, ◌-◌, ◌<◌, ◌≤◌, ◌↔◌, ◌++◌, length, true, IfOk, IsTrue, OnOk, Err};
ghost use Rattle.page_source.specs.declared.rule.Fault.{Fault};
ghost use Rattle.page_source.specs.Calls.{OfFile, Puts};
ghost use Rattle.offpage_chain.specs.Chain.{chain_pages};
ghost use Rattle.offpage_chain.specs.Reference.{reference_of};
ghost use Rattle.row_text.specs.Writer.{Writer, before_value, with_value, is_long, long_part};
ghost use Rattle.sql_dump.specs.Stops.{Writes, WritesOver};
ghost use Rattle.sql_dump.specs.SomeRows.{PutsSomeBytes, PutsSomeValue};
ghost use Rattle.sql_dump.specs.Long.{CanFollowIn, FitsLong, IsSplit, chain_bytes, long_text};

use crate::buffer::Buffer;
use crate::stop::WriteStop;
use column_values::{ColumnType, FieldType};
use offpage_chain::layout::PART_START;
use offpage_chain::{ChainReader, Reference};
use page_source::{ByteSink, Failed, NoMemory, Page, PageSource, Rule, Steps};
use row_text::RowWriter;
use row_text::laws::parts_are_the_value;
use std::alloc::Global;
use std::sync::ledger::Ledger;
use table_check::split_local;

/// A page for the parts of chains, how many may still be fetched, and room for the text of one part.
#[derive(Debug, Drop)]
pub struct ChainRoom {
    pub page: Page,
    pub left: u32,
    pub text: Buffer,
}

impl ChainRoom {
    /// Room for the parts of chains, of which so many pages may be fetched.
    pub fn new(alloc: Global, left: u32) -> Result<ChainRoom, NoMemory>
        ensures { IfOk result (λ room. room.left ≡ left) }
    {
        Ok(ChainRoom {
            page: Page::zeroed(alloc)?,
            left,
            text: Buffer::new(alloc)?,
        })
    }
}

/// The local bytes of a value that goes on elsewhere.
#[derive(Clone, Copy)]
struct LocalBytes<'a> {
    /// The local bytes that begin the value.
    front: &'a [u8],
    /// The reference after the local bytes that begin the value.
    reference: Reference,
    /// How many bytes the whole value has.
    stated: u64,
}

/// The parts of the local bytes of a value that goes on elsewhere.
fn local_parts(local: &[u8]) -> LocalBytes<'_>
    requires { 20 ≤ length local.now }
    ensures { IsSplit local.now result.front.now result.reference result.stated }
{
    let (front, reference) = split_local(local);
    LocalBytes {
        front,
        reference,
        stated: front.len() as u64 + u64::from(reference.length),
    }
}

/// Whether a value of this type may go on elsewhere, and be as long as these local bytes state.
pub(crate) fn fits_long(kind: &ColumnType, local: &[u8]) -> bool
    requires { 20 ≤ length local.now }
    ensures { IsTrue result ↔ FitsLong kind.now local.now }
{
    let field = FieldType::Column(*kind);
    field.is_variable() && local_parts(local).stated <= field.fixed_length() as u64
}

/// Makes the text of some bytes of a long value. Each byte has two at the most, so there is room.
fn part_text(writer: &mut RowWriter, text: &mut Buffer, kind: &ColumnType, bytes: &[u8])
    requires long { is_long kind.now ≡ true }
    requires lacks { length bytes.now ≤ writer.old.lacks }
    requires short { length bytes.now ≤ 16384 }
    ensures text { text.new.bytes ≡ long_part kind.now bytes.now }
    ensures counts { writer.new ≡ record writer.old { lacks = writer.old.lacks - length bytes.now } }
{
    text.truncate(0);
    match writer.part(text, kind, bytes) {
        Ok(()) => {}
        Err(Failed) => {
            let _ = text.len();
            unreachable!();
        }
    }
}

/// Puts some bytes of a long value in one piece.
fn put_part<O: ByteSink>(
    sink: &mut O,
    writer: &mut RowWriter,
    text: &mut Buffer,
    kind: &ColumnType,
    bytes: &[u8],
) -> Result<(), Failed>
    requires long { is_long kind.now ≡ true }
    requires lacks { length bytes.now ≤ writer.old.lacks }
    requires short { length bytes.now ≤ 16384 }
    ensures puts { Puts O.ByteSink sink.old sink.new (long_part kind.now bytes.now) result }
    ensures counts { writer.new ≡ record writer.old { lacks = writer.old.lacks - length bytes.now } }
{
    if writer.take_plain(kind, bytes) {
        return sink.put(bytes);
    }
    part_text(writer, text, kind, bytes);
    sink.put(text.bytes())
}

/// Puts the bytes of a chain.
fn put_chain<S: PageSource, O: ByteSink, L: Ledger>(
    source: &mut S,
    sink: &mut O,
    writer: &mut RowWriter,
    kind: &ColumnType,
    reference: &Reference,
    room: &mut ChainRoom,
    steps: &mut Steps<L>,
) -> Result<(), WriteStop>
    requires long { is_long kind.now ≡ true }
    requires lacks { writer.old.lacks ≡ reference.now.length }
    requires told { OfFile S.PageSource source.old (λ file. CanFollowIn file reference.now room.old.left) }
    ensures puts { OfFile S.PageSource source.old (λ file. Writes result (O.written sink.old) (O.written sink.new)
        (long_part kind.now (chain_bytes file reference.now))) }
    ensures some { PutsSomeBytes kind.now reference.now.length result (O.written sink.old) (O.written sink.new) }
    ensures left { OnOk result (OfFile S.PageSource source.old (λ file.
        room.new.left + length (chain_pages file reference.now) ≡ room.old.left)) }
    ensures came { OnOk result (writer.new ≡ record { came = writer.old.came; lacks = 0 }) }
    ensures broken { (fault : Fault) → result ≡ Err (WriteStop.Broken fault) → fault.rule ≡ Rule.ChainLength }
    ensures source { result ≡ Err WriteStop.Source → 0 < room.old.left }
    ensures fewer { OnOk result (room.new.left ≤ room.old.left) }
    ensures cost { steps.new + room.new.left ≡ steps.old + room.old.left }
    ensures over { WritesOver S.PageSource O.ByteSink source.old source.new sink.old sink.new
        steps.old steps.new result }
{
    parts_are_the_value();
    let mut reader = ChainReader::new(reference);
    while let Some(length) = reader.part(source, &mut room.page, &mut room.left, steps)? {
        let part = &room.page.bytes()[PART_START..PART_START + length];
        put_part(sink, writer, &mut room.text, kind, part)?;
    }
    Ok(())
}

/// Puts the value that begins with these local bytes and goes on elsewhere.
pub(crate) fn put_long<S: PageSource, O: ByteSink, L: Ledger>(
    source: &mut S,
    sink: &mut O,
    writer: &mut RowWriter,
    kind: &ColumnType,
    local: &[u8],
    room: &mut ChainRoom,
    steps: &mut Steps<L>,
) -> Result<(), WriteStop>
    requires few { writer.old.came < 64 }
    requires long { is_long kind.now ≡ true }
    requires refers { 20 ≤ length local.now }
    requires short { length local.now ≤ 16384 }
    requires told { OfFile S.PageSource source.old (λ file. CanFollowIn file (reference_of local.now) room.old.left) }
    ensures puts { OfFile S.PageSource source.old (λ file. Writes result (O.written sink.old) (O.written sink.new)
        (before_value writer.old.came ++ long_text file kind.now local.now)) }
    ensures some { PutsSomeValue kind.now writer.old.came result (O.written sink.old) (O.written sink.new) }
    ensures left { OnOk result (OfFile S.PageSource source.old (λ file.
        room.new.left + length (chain_pages file (reference_of local.now)) ≡ room.old.left)) }
    ensures came { OnOk result (writer.new ≡ with_value writer.old 0) }
    ensures broken { (fault : Fault) → result ≡ Err (WriteStop.Broken fault) → fault.rule ≡ Rule.ChainLength }
    ensures source { result ≡ Err WriteStop.Source → 0 < room.old.left }
    ensures fewer { OnOk result (room.new.left ≤ room.old.left) }
    ensures cost { steps.new + room.new.left ≡ steps.old + room.old.left }
    ensures over { WritesOver S.PageSource O.ByteSink source.old source.new sink.old sink.new
        steps.old steps.new result }
{
    parts_are_the_value();
    let value = local_parts(local);
    writer.start_long(sink, kind, value.stated)?;
    put_part(sink, writer, &mut room.text, kind, value.front)?;
    put_chain(source, sink, writer, kind, &value.reference, room, steps)?;
    writer.end_long(sink, kind, value.stated)?;
    Ok(())
}
