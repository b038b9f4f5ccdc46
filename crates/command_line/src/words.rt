//! The words of a command line.

ghost use Rattle.std.specs.Prelude.{◌≡◌, ◌↔◌, ◌≤◌, [], ◌∷◌, ◌++◌, ℕ, List, length, slice_get};
ghost use Rattle.std.specs.Prelude.{◌<◌, ◌^◌, Some, IsTrue, IfSome, OnOk, OnErr, MatchOption, decimal};

use itoa::Buffer;
use page_source::{ByteList, NoMemory};
use std::alloc::Global;
use std::marker::Model;

/// The command line without the program's name.
#[derive(Debug, Drop)]
pub struct Words {
    alloc: Global,
    words: Vec<ByteList>,
}

impl Model for Words {
    ghost Value = { List (List ℕ) };

    ghost view = { λ w. w.words.items };
}

impl Words {
    /// No word, and no memory taken yet.
    pub fn new(alloc: Global) -> Words
        ensures { result ≡ [] }
    {
        Words {
            alloc,
            words: Vec::new(alloc),
        }
    }

    /// Adds a word at the end.
    pub fn push(&mut self, word: &[u8]) -> Result<(), NoMemory>
        ensures ok { OnOk result (self.new ≡ self.old ++ word.now ∷ []) }
        ensures err { OnErr result (self.new ≡ self.old) }
    {
        let mut bytes = ByteList::new(self.alloc);
        bytes.extend(word)?;
        self.words.push(bytes)?;
        Ok(())
    }

    /// Word `place`, counted from 0.
    pub fn get(&self, place: usize) -> Option<&[u8]>
        ensures { MatchOption result (length self.now ≤ place) (λ word. slice_get self.now place ≡ Some word.now) }
    {
        if place < self.words.len() {
            Some(self.words[place].bytes())
        } else {
            None
        }
    }

    /// Whether these are so many words, the first of which is this one.
    pub fn is_command(&self, name: &str, count: usize) -> bool
        ensures { IsTrue result ↔ ((length self.now ≡ count) × (slice_get self.now 0 ≡ Some name.now)) }
    {
        let Some(first) = self.get(0) else {
            return false;
        };
        self.words.len() == count && first == name.as_bytes()
    }
}

/// The number that the word spells, in decimal without leading zeros; none for any other word, and for numbers of 2^64
/// and up.
pub fn decimal_id(word: &[u8]) -> Option<u64>
    ensures found { IfSome result (λ n. word.now ≡ decimal n) }
    ensures only { (n : ℕ) → n < 2 ^ 64 → word.now ≡ decimal n → result ≡ Some n }
{
    let number: u64 = str::from_utf8(word).ok()?.parse().ok()?;
    is_decimal(word, number).then_some(number)
}

fn is_decimal(word: &[u8], number: u64) -> bool
    ensures { IsTrue result ↔ (word.now ≡ decimal number) }
{
    Buffer::new().format(number).as_bytes() == word
}
