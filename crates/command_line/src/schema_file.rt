//! The text of a schema, read from its source.

ghost use Rattle.std.specs.Prelude.{◌≡◌, ◌<◌, ◌≤◌, length, vec_len, IfOk, IfSome, Err};
ghost use Rattle.page_source.specs.Faults.{HasCause, Rose};
ghost use Rattle.command_line.specs.SchemaFile.{ReadsSchema, stop_of_schema};
ghost use Rattle.command_line.specs.Reading.{CameUpTo, IsReadUpTo};

use page_source::{ByteSource, Failed, NoMemory};
use schema_text::{Schema, SchemaError, SchemaWhy};
use std::alloc::Global;

/// One byte more than a schema text may have.
const SCHEMA_BUFFER: usize = 65_537;

/// Why there is no schema.
#[derive(Clone, Copy, Debug, PartialEq, Eq)]
pub enum SchemaStop {
    /// The text is refused at this line.
    Refused { line: u32, why: SchemaWhy },
    /// The text can't be read.
    Source,
    /// Memory ran out.
    Memory,
}

impl From<SchemaError> for SchemaStop {
    ghost from_gives = { λ error stop. stop ≡ stop_of_schema error };

    fn from(error: SchemaError) -> Self {
        match error {
            SchemaError::Refused { line, why } => SchemaStop::Refused { line, why },
            SchemaError::Memory => SchemaStop::Memory,
        }
    }
}

impl From<Failed> for SchemaStop {
    ghost use Rattle.command_line.specs.declared.schema_file.SchemaStop.{SchemaStop};

    ghost from_gives = { λ _ stop. stop ≡ SchemaStop.Source };

    fn from(_: Failed) -> Self {
        SchemaStop::Source
    }
}

impl From<NoMemory> for SchemaStop {
    ghost use Rattle.command_line.specs.declared.schema_file.SchemaStop.{SchemaStop};

    ghost from_gives = { λ _ stop. stop ≡ SchemaStop.Memory };

    fn from(_: NoMemory) -> Self {
        SchemaStop::Memory
    }
}

/// Reads the schema text to its end, or until it is too long for one.
pub fn read_schema<Q: ByteSource>(alloc: Global, source: &mut Q) -> Result<Schema, SchemaStop>
    ensures exact { IfSome (Q.left source.old) (λ text. ReadsSchema text (Q.left source.new) result) }
    ensures read { IfSome (Q.left source.old) (λ text. IsReadUpTo 65537 text (Q.left source.new)) }
    ensures cause { result ≡ Err SchemaStop.Source → Rose (Q.faults source.old) (Q.faults source.new) }
{
    let mut buffer = schema_buffer(alloc)?;
    let count = read_up_to(source, &mut buffer)?;
    Ok(Schema::read(alloc, &buffer[..count])?)
}

/// Room for a schema text that is too long.
fn schema_buffer(alloc: Global) -> Result<Vec<u8>, NoMemory>
    ensures { IfOk result (λ buffer. vec_len buffer ≡ 65537) }
{
    Ok(Vec::from_elem(alloc, 0, SCHEMA_BUFFER)?)
}

/// Reads bytes until the buffer is full, or the text ends, and answers how many came.
fn read_up_to<Q: ByteSource>(source: &mut Q, buffer: &mut [u8]) -> Result<usize, Failed>
    ensures within { IfOk result (λ n. n ≤ length buffer.new) }
    ensures came { IfOk result (λ n. IfSome (Q.left source.old) (λ text.
        CameUpTo text (Q.left source.new) n buffer.new)) }
    ensures rest { IfSome (Q.left source.old) (λ text. IsReadUpTo (length buffer.old) text (Q.left source.new)) }
    ensures cause { HasCause (Q.faults source.old) (Q.faults source.new) result }
{
    let mut came = 0;
    while came < buffer.len() {
        let count = source.read(&mut buffer[came..])?;
        if count == 0 {
            return Ok(came);
        }
        came += count;
    }
    Ok(came)
}
