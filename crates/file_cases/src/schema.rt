//! The command `schema`: the text of a schema, accepted and printed back, or refused.

use crate::outcome::End;
use crate::report::Report;
use case_files::error::LineError;
use page_source::{ByteList, NoMemory};
use schema_text::Schema;
use std::alloc::Global;

/// Reads the text, and compares.
pub fn try_schema(
    alloc: Global,
    text: &[u8],
    answer: &str,
    report: &mut Report,
) -> Result<(), LineError> {
    let came = answer_of(alloc, text)?;
    report.compare(b"", answer.as_bytes(), came.bytes())
}

/// `same` if the text is accepted and printed back, what is printed if that is another text, or why it is refused.
fn answer_of(alloc: Global, text: &[u8]) -> Result<ByteList, NoMemory> {
    let mut came = ByteList::new(alloc);
    match Schema::read(alloc, text) {
        Ok(schema) => {
            let printed = schema.print(alloc)?;
            if printed.bytes() == text {
                came.extend(b"same")?;
            } else {
                came.extend(printed.bytes())?;
            }
        }
        Err(error) => End::from(error).put(&mut came)?,
    }
    Ok(came)
}
