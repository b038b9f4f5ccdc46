//! Texts in quotes, which are read in pieces and each once.

ghost use Rattle.std.specs.Prelude.{◌≡◌, ◌≤◌, ◌↔◌, true, length, MatchOption, IsTrue, IfOk};
ghost use Rattle.column_values.specs.declared.value.Value.{Value};
ghost use Rattle.column_values.specs.Types.{IsColumnType};
ghost use Rattle.column_values.specs.Spell.{IsSpelling, IsTrimmed, IsValueOf};
ghost use Rattle.row_text.specs.calls.Values.{EndsValue, FindsValue};
ghost use Rattle.row_text.specs.calls.Texts.{FindsText, LeadsByte, LeadsNoByte, TakesText, is_quoted};

use crate::escape::is_escaped;
use crate::plain::plain_front;
use crate::read::ends::behind;
use crate::read::runs::{byte_of, write_text};
use crate::row::RowError;
use column_values::{ColumnType, Value, is_value};
use page_source::{ByteList, NoMemory};
use std::alloc::Global;

/// How many bytes of a text are read at a time that stand for themselves.
const PLAIN: usize = 16384;

/// How many bytes of a text with escapes are written at a time.
const PIECE: usize = 256;

/// The byte that a text begins with, and in how many bytes it stands there: in one, or in two behind a backslash; none
/// where no byte of a text stands there.
fn first_byte(text: &[u8]) -> Option<(u8, usize)>
    ensures { MatchOption result (LeadsNoByte text.now) (λ first. LeadsByte first.0 first.1 text.now) }
{
    if text.is_empty() {
        return None;
    }
    if !is_escaped(text[0]) {
        return Some((text[0], 1));
    }
    if text[0] != b'\\' || text.len() < 2 {
        return None;
    }
    let byte = byte_of(text[1])?;
    Some((byte, 2))
}

/// Adds the bytes at the head of a text that stand for themselves, by whole runs, and answers what is left.
fn add_plain<'a>(list: &mut ByteList, text: &'a [u8]) -> Result<&'a [u8], NoMemory>
    ensures takes { IfOk result (λ rest. TakesText list.old list.new text.now rest.now) }
    ensures most { IfOk result (λ rest. length rest.now ≤ length text.now) }
{
    let (front, _) = text.split_at(text.len().min(PLAIN));
    let (plain, rest) = text.split_at(plain_front(front));
    list.extend(plain)?;
    Ok(rest)
}

/// Adds the bytes that a text begins with, as many as a piece has room for at the most, and answers what is left.
fn add_some<'a>(list: &mut ByteList, text: &'a [u8]) -> Result<&'a [u8], NoMemory>
    ensures takes { IfOk result (λ rest. TakesText list.old list.new text.now rest.now) }
    ensures most { IfOk result (λ rest. length rest.now ≤ length text.now) }
{
    let mut room = [0; PIECE];
    let (read, written) = write_text(text, &mut room);
    list.extend(&room[..written])?;
    let (_, rest) = text.split_at(read);
    Ok(rest)
}

/// The text that stands in quotes at the head, and how many bytes it takes there.
fn unquoted(alloc: Global, text: &[u8]) -> Result<(ByteList, usize), RowError>
    ensures found { FindsText text.now result }
    ensures within { IfOk result (λ found. found.1 ≤ length text.now) }
{
    let Some(mut rest) = behind(text, b"'") else {
        return Err(RowError::Refused);
    };
    let mut list = ByteList::new(alloc);
    while let Some((byte, size)) = first_byte(rest) {
        list.push(byte)?;
        let (_, behind_byte) = rest.split_at(size);
        let more = add_plain(&mut list, behind_byte)?;
        rest = add_some(&mut list, more)?;
    }
    let Some(behind_quote) = behind(rest, b"'") else {
        return Err(RowError::Refused);
    };
    Ok((list, text.len() - behind_quote.len()))
}

/// Whether the text has at most `n` bytes and doesn't end with a space.
fn is_trimmed(n: u32, text: &[u8]) -> bool
    ensures { IsTrue result ↔ IsTrimmed n text.now }
{
    text.len() <= n as usize && (text.is_empty() || text[text.len() - 1] != b' ')
}

/// Whether the text has characters of one byte alone, and not too many: then it is a value of its type of utf8mb4, and
/// its characters needn't be counted.
fn is_short_ascii(kind: &ColumnType, text: &[u8]) -> bool
    ensures { IsTrue result → IsSpelling kind.now text.now }
{
    match *kind {
        ColumnType::Utf8Varchar { n } => text.len() <= n as usize && text.is_ascii(),
        ColumnType::Utf8Text { n } => text.len() <= n as usize && text.is_ascii(),
        _ => false,
    }
}

/// Whether the text spells a value of the type.
fn is_spelling(kind: &ColumnType, text: &[u8]) -> bool
    requires { IsColumnType kind.now }
    ensures { IsTrue result ↔ IsSpelling kind.now text.now }
{
    is_short_ascii(kind, text) || is_value(kind, text)
}

/// Whether the text is a value of the type, one of those whose values stand in quotes.
fn is_text_of(kind: &ColumnType, text: &[u8]) -> bool
    requires known { IsColumnType kind.now }
    requires quoted { is_quoted kind.now ≡ true }
    ensures { IsTrue result ↔ IsValueOf kind.now (Value.Text text.now) }
{
    match *kind {
        ColumnType::Char { n } => is_trimmed(n, text),
        _ => is_spelling(kind, text),
    }
}

/// Whether a value may end before the text.
pub(crate) fn ends_value(text: &[u8]) -> bool
    ensures { IsTrue result ↔ EndsValue text.now }
{
    text.is_empty() || text[0] == b',' || text[0] == b')'
}

/// The text in quotes that the text begins with, as a value, and how many bytes it takes there.
pub(crate) fn read_text(
    alloc: Global,
    kind: &ColumnType,
    text: &[u8],
) -> Result<(Value, usize), RowError>
    requires known { IsColumnType kind.now }
    requires quoted { is_quoted kind.now ≡ true }
    ensures found { FindsValue kind.now text.now result }
    ensures within { IfOk result (λ found. found.1 ≤ length text.now) }
{
    let (inside, size) = unquoted(alloc, text)?;
    if !is_text_of(kind, inside.bytes()) {
        return Err(RowError::Refused);
    }
    if !ends_value(&text[size..]) {
        return Err(RowError::Refused);
    }
    Ok((Value::Text(inside), size))
}
