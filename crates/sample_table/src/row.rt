//! The rows of the made table.

ghost use Rattle.std.specs.Prelude.{◌≡◌, ◌*◌, ◌%◌, ◌≤◌, IfOk};
ghost use Rattle.sample_table.specs.Sample.{sample_number, sample_tag, sample_note, sample_row, letters};

use column_values::Value;
use page_source::{ByteList, NoMemory};
use row_text::Row;
use std::alloc::Global;

/// How many letters a long note has.
const LONG_NOTE: u32 = 20_000;

/// The number that row `i` is made of.
fn sample_number(i: u32) -> u32
    requires { i ≤ 200000 }
    ensures { result ≡ sample_number i }
{
    i * 7919 % 10007
}

fn tag(alloc: Global, i: u32) -> Result<Value, NoMemory>
    requires { i ≤ 200000 }
    ensures { IfOk result (λ value. value ≡ sample_tag i) }
{
    let number = sample_number(i);
    if number % 10 == 0 {
        return Ok(Value::Null);
    }
    let mut text = ByteList::new(alloc);
    text.extend(b"t")?;
    text.extend(itoa::Buffer::new().format(number).as_bytes())?;
    Ok(Value::Text(text))
}

/// A text of so many letters.
fn letters(alloc: Global, count: u32) -> Result<ByteList, NoMemory>
    ensures { IfOk result (λ text. text ≡ letters count) }
{
    let mut text = ByteList::new(alloc);
    for _i in 0..count {
        text.push(b'n')?;
    }
    Ok(text)
}

fn note(alloc: Global, i: u32) -> Result<Value, NoMemory>
    requires { i ≤ 200000 }
    ensures { IfOk result (λ value. value ≡ sample_note i) }
{
    if i % 1000 == 0 {
        return Ok(Value::Text(letters(alloc, LONG_NOTE)?));
    }
    if i % 3 == 0 {
        return Ok(Value::Null);
    }
    Ok(Value::Text(letters(alloc, sample_number(i) % 300)?))
}

/// Row `i`.
pub(crate) fn row_of(alloc: Global, i: u32) -> Result<Row, NoMemory>
    requires { i ≤ 200000 }
    ensures { IfOk result (λ row. row ≡ sample_row i) }
{
    let mut row = Row::new(alloc);
    row.push(Value::Unsigned(u64::from(i)))?;
    row.push(tag(alloc, i)?)?;
    row.push(note(alloc, i)?)?;
    Ok(row)
}
