//! Calls of an object that fail, each in a try of its own.

use crate::error::LineError;
use crate::text::put_number;
use crate::words::{Range, Words};
use page_source::{ByteList, NoMemory};
use std::alloc::Global;

/// The most tries of a line.
const MOST_TRIES: u64 = 1000;

/// An object of which calls fail.
#[derive(Clone, Copy)]
pub enum Object {
    /// What is read: the text of the rows, or an image.
    Source,
    /// The file that is made.
    Target,
    /// The text that is written.
    Sink,
}

/// Which calls of an object fail, each of them in a try of its own. There is no call 0.
#[derive(Clone, Copy)]
pub struct Failing {
    object: Object,
    pub calls: Range,
}

impl Failing {
    /// No call at all.
    const NONE: Failing = Failing {
        object: Object::Source,
        calls: Range { first: 0, last: 0 },
    };

    /// `fail rows 2`, `fail image 1`, `fail target 1-5` or `fail sink 1`, where the line says it.
    pub fn read(words: &mut Words) -> Result<Failing, LineError> {
        if !words.skip("fail") {
            return Ok(Failing::NONE);
        }
        let object = match words.next()? {
            "rows" | "image" => Object::Source,
            "target" => Object::Target,
            "sink" => Object::Sink,
            _ => return Err(LineError::Word),
        };
        let calls = words.range()?;
        if calls.last.saturating_sub(calls.first) > MOST_TRIES {
            return Err(LineError::Number);
        }
        Ok(Failing { object, calls })
    }

    /// The call of the object that fails in a try, if it is this one.
    pub fn call_of(self, object: Object, call: u64) -> u64 {
        if self.object == object { call } else { 0 }
    }
}

/// Which call of an object failed.
pub fn which_of(alloc: Global, call: u64) -> Result<ByteList, NoMemory> {
    let mut which = ByteList::new(alloc);
    if call > 0 {
        which.extend(b" at call ")?;
        put_number(&mut which, call)?;
    }
    Ok(which)
}
