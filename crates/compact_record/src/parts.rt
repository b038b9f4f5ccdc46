//! The parts that a record is made of.

ghost use Rattle.std.specs.Prelude.{◌≡◌, ◌<◌, [], ◌∷◌, ◌++◌, OnOk, OnErr, length};
ghost use Rattle.compact_record.specs.Writing.{is_null_part, local_bytes, part_at};
ghost use Rattle.compact_record.specs.declared.parts.Part.TheVariants.{Null, Bytes};

use page_source::{ByteList, NoMemory};
use std::alloc::Global;
use std::marker::Model;

/// A field's part of a record.
#[derive(Debug, Drop)]
pub enum Part {
    /// No value.
    Null,
    /// The bytes that stand in the record. The last 20 bytes of an external part are a reference to the rest of its
    /// value (btr0cur).
    Bytes { bytes: ByteList, external: bool },
}

impl Part {
    /// Whether the part has no value.
    pub(crate) fn is_null(&self) -> bool
        ensures { result ≡ is_null_part self.now }
    {
        matches!(self, Part::Null)
    }

    /// The bytes that stand in the record.
    pub(crate) fn bytes(&self) -> &[u8]
        ensures { result.now ≡ local_bytes self.now }
    {
        match self {
            Part::Null => &[],
            Part::Bytes { bytes, .. } => bytes.bytes(),
        }
    }
}

/// The parts of a record, in field order.
#[derive(Debug, Drop)]
pub struct Parts {
    alloc: Global,
    parts: Vec<Part>,
}

impl Model for Parts {
    ghost use Rattle.std.specs.Prelude.{List};
    ghost use Rattle.compact_record.specs.declared.parts.Part.{Part};

    ghost Value = { List Part };

    ghost view = { λ p. p.parts.items };
}

impl Parts {
    /// No part yet, which takes no memory.
    pub fn new(alloc: Global) -> Parts
        ensures { result ≡ [] }
    {
        Parts {
            alloc,
            parts: Vec::new(alloc),
        }
    }

    /// Adds a part without a value.
    pub fn push_null(&mut self) -> Result<(), NoMemory>
        ensures ok { OnOk result (self.new ≡ self.old ++ Null ∷ []) }
        ensures err { OnErr result (self.new ≡ self.old) }
    {
        self.parts.push(Part::Null)?;
        Ok(())
    }

    /// Adds a part with these bytes.
    pub fn push(&mut self, bytes: &[u8], external: bool) -> Result<(), NoMemory>
        ensures ok { OnOk result (self.new ≡ self.old ++ Bytes bytes.now external ∷ []) }
        ensures err { OnErr result (self.new ≡ self.old) }
    {
        let mut copy = ByteList::new(self.alloc);
        copy.extend(bytes)?;
        self.parts.push(Part::Bytes {
            bytes: copy,
            external,
        })?;
        Ok(())
    }

    /// How many parts there are.
    pub(crate) fn count(&self) -> usize
        ensures { result ≡ length self.now }
    {
        self.parts.len()
    }

    /// Part `i`.
    pub(crate) fn at(&self, i: usize) -> &Part
        requires { i < length self.now }
        ensures { result.now ≡ part_at self.now i }
    {
        &self.parts[i]
    }
}
