//! What a line says of its file.

use crate::edit::{Edit, Frame};
use crate::error::LineError;
use crate::words::{Range, Words};
use fil_frame::SumKind;
use std::alloc::Global;

/// How many bytes the file has.
#[derive(Clone, Copy)]
pub enum Size {
    /// The file has as many bytes as before.
    AsIs,
    /// A file of so many whole pages.
    Pages(u64),
    /// At most so many bytes of the file.
    Cut(u64),
    /// The file with so many zeros after its end.
    More(u64),
}

/// What goes wrong, each number of the range in turn.
#[derive(Clone, Copy)]
pub enum Trouble<'a> {
    None,
    /// The file's call with this number fails.
    File(Range),
    /// The sink's call with this number fails.
    Sink(Range),
    /// The call with this number of the sink for what is lost fails.
    Losses(Range),
    /// The sink has room for so many bytes.
    Room(Range),
    /// From the call with this number on the file is the named one.
    Turns(&'a str, Range),
}

/// A file by its name, and what is done to it.
#[derive(Drop)]
pub struct Plan<'a> {
    pub base: &'a str,
    pub schema: Option<&'a str>,
    pub edits: Vec<Edit>,
    pub size: Size,
    pub trouble: Trouble<'a>,
}

impl<'a> Plan<'a> {
    /// The named file as it is.
    pub fn of(alloc: Global, base: &'a str) -> Plan<'a> {
        Plan {
            base,
            schema: None,
            edits: Vec::new(alloc),
            size: Size::AsIs,
            trouble: Trouble::None,
        }
    }

    /// Reads the name of the file, and what is done to it, as far as the words are of that.
    pub fn read(alloc: Global, words: &mut Words<'a>) -> Result<Plan<'a>, LineError> {
        let mut plan = Plan::of(alloc, words.next()?);
        plan.read_items(alloc, words)?;
        Ok(plan)
    }

    /// Reads what is done to the file. Each item has a word at least.
    pub fn read_items(&mut self, alloc: Global, words: &mut Words<'a>) -> Result<(), LineError> {
        for _ in 0..words.left() {
            let Some(word) = words.peek() else {
                break;
            };
            if !is_item(word) {
                break;
            }
            words.next()?;
            self.read_item(alloc, word, words)?;
        }
        Ok(())
    }

    /// Reads what stands behind the first word of an item.
    fn read_item(
        &mut self,
        alloc: Global,
        word: &'a str,
        words: &mut Words<'a>,
    ) -> Result<(), LineError> {
        match word {
            "schema" => self.schema = Some(words.next()?),
            "pages" => self.size = Size::Pages(words.number()?),
            "cut" => self.size = Size::Cut(words.number()?),
            "more" => self.size = Size::More(words.number()?),
            "seal" => self.edits.push(Edit::Seal(read_seal(words)))?,
            "raw" => self.edits.push(Edit::Seal(Frame::AsIs))?,
            "fail" | "room" | "turns" => return self.read_trouble(word, words),
            _ => self.edits.push(Edit::read(alloc, word)?)?,
        }
        Ok(())
    }

    fn read_trouble(&mut self, word: &'a str, words: &mut Words<'a>) -> Result<(), LineError> {
        if !matches!(self.trouble, Trouble::None) {
            return Err(LineError::Word);
        }
        self.trouble = match word {
            "room" => Trouble::Room(words.range()?),
            "turns" => read_turn(words)?,
            _ => match words.next()? {
                "file" => Trouble::File(words.range()?),
                "sink" => Trouble::Sink(words.range()?),
                "losses" => Trouble::Losses(words.range()?),
                _ => return Err(LineError::Word),
            },
        };
        Ok(())
    }
}

/// Whether an item begins with the word.
fn is_item(word: &str) -> bool {
    word.contains(':')
        || matches!(
            word,
            "schema" | "pages" | "cut" | "more" | "seal" | "raw" | "fail" | "room" | "turns"
        )
}

/// How pages are sealed, by what stands behind `seal`.
fn read_seal(words: &mut Words) -> Frame {
    if words.skip("innodb") {
        Frame::Sums(SumKind::Innodb)
    } else if words.skip("none") {
        Frame::Sums(SumKind::Fixed)
    } else {
        Frame::Sums(SumKind::Crc32)
    }
}

/// `NAME at K`, behind `turns`.
fn read_turn<'a>(words: &mut Words<'a>) -> Result<Trouble<'a>, LineError> {
    let name = words.next()?;
    if !words.skip("at") {
        return Err(LineError::Word);
    }
    Ok(Trouble::Turns(name, words.range()?))
}
