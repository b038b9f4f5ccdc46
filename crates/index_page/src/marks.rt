//! A mark for each number below 16,384, in a bit each.

ghost use Rattle.std.specs.Prelude.{◌≡◌, ◌+◌, ◌-◌, ◌*◌, ◌/◌, ◌^◌, ◌≤◌, ◌<◌, ◌↔◌, IsTrue};
ghost use Rattle.index_page.specs.Marks.{bits_of, none_seen, with_mark, with_span, IsUnmarked};

use page_source::NoMemory;
use std::alloc::Global;
use std::marker::Model;

/// The words of 64 bits that the marks take.
const WORDS: usize = 256;

/// A mark for each number below 16,384.
#[derive(Debug, Drop)]
pub(crate) struct Marks {
    words: Vec<u64>,
}

impl Model for Marks {
    ghost use Rattle.std.specs.Prelude.{◌≡◌, ℕ, List, length};

    ghost Value = { List ℕ };

    ghost view = { λ marks. marks.words.items };

    ghost invariant = { λ marks. length marks.words.items ≡ 256 };
}

impl Marks {
    /// No mark at all.
    pub(crate) fn new(alloc: Global) -> Result<Marks, NoMemory> {
        Ok(Marks {
            words: Vec::from_elem(alloc, 0, WORDS)?,
        })
    }

    /// Takes all marks away.
    pub(crate) fn clear(&mut self)
        ensures { bits_of self.new ≡ none_seen }
    {
        self.words.fill(0);
    }

    /// Whether number `n` is marked.
    pub(crate) fn has(&self, n: usize) -> bool
        requires { n < 16384 }
        ensures { result ≡ bits_of self.now n }
    {
        self.words[n / 64] >> (n % 64) & 1 == 1
    }

    /// Marks number `n`.
    pub(crate) fn set(&mut self, n: usize)
        requires { n < 16384 }
        ensures { bits_of self.new ≡ with_mark (bits_of self.old) n }
    {
        self.words[n / 64] |= 1 << (n % 64);
    }

    /// Marks the numbers from one up to another of the same word, where none of them is marked.
    fn set_in_word(&mut self, from: usize, to: usize) -> bool
        requires rising { from < to }
        requires inside { to ≤ 16384 }
        requires one_word { to ≤ 64 * (from / 64) + 64 }
        ensures exact { IsTrue result ↔ IsUnmarked (bits_of self.old) from to }
        ensures marks { bits_of self.new ≡ with_span (bits_of self.old) from to }
    {
        let word = from / 64;
        let span = span_of(from % 64, to - 64 * word);
        let free = self.words[word] & span == 0;
        self.words[word] |= span;
        free
    }

    /// Marks the numbers from one up to another, where none of them is marked, a word at a time.
    pub(crate) fn set_span(&mut self, from: usize, to: usize) -> bool
        requires rising { from ≤ to }
        requires inside { to ≤ 16384 }
        ensures exact { IsTrue result ↔ IsUnmarked (bits_of self.old) from to }
        ensures marks { IsTrue result → bits_of self.new ≡ with_span (bits_of self.old) from to }
    {
        let mut here = from;
        while here < to {
            let end = to.min(64 * (here / 64) + 64);
            if !self.set_in_word(here, end) {
                return false;
            }
            here = end;
        }
        true
    }
}

/// The bits of a word from one up to another.
#[tactic(auto, using(crate::proofs::MarkBits::span_is))]
fn span_of(low: usize, high: usize) -> u64
    requires rising { low < high }
    requires inside { high ≤ 64 }
    ensures { result ≡ 2 ^ high - 2 ^ low }
{
    u64::MAX >> (64 - (high - low)) << low
}
