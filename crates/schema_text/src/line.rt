//! A line as its words.

ghost use Rattle.std.specs.Prelude.{◌≡◌, [], length, slice_index_or, IfOk};
ghost use Rattle.schema_text.specs.Refusals.{words_of};

use page_source::NoMemory;
use std::alloc::Global;
use std::marker::Model;

/// The words of a line, cut at every single space.
#[derive(Drop)]
pub(crate) struct Words<'a> {
    words: Vec<&'a [u8]>,
}

impl<'a> Model for Words<'a> {
    ghost use Rattle.std.specs.Prelude.{List, ℕ, map};

    ghost Value = { List (List ℕ) };

    ghost view = { λ line. map (λ word. word.now) line.words.items };
}

impl<'a> Words<'a> {
    pub(crate) fn of(alloc: Global, line: &'a [u8]) -> Result<Words<'a>, NoMemory>
        ensures { IfOk result (λ words. words ≡ words_of line.now) }
    {
        let words = line.split(|b| *b == b' ').collect(alloc)?;
        Ok(Words { words })
    }

    pub(crate) fn len(&self) -> usize
        ensures { result ≡ length self.now }
    {
        self.words.len()
    }

    /// The word at a place, counted from 0; past the end an empty one.
    pub(crate) fn at(&self, i: usize) -> &'a [u8]
        ensures { result.now ≡ slice_index_or self.now i [] }
    {
        if i < self.words.len() {
            self.words[i]
        } else {
            &[]
        }
    }
}
