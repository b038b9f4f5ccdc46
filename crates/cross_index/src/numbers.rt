//! Numbers, one after another, in four bytes each as long as they fit.

ghost use Rattle.std.specs.Prelude.{◌≡◌, ◌<◌, ◌++◌, ◌∷◌, [], OnOk, OnErr, length, slice_index_or};

use page_source::NoMemory;
use std::alloc::Global;
use std::marker::Model;

/// The greatest number that has four bytes.
const GREATEST_SMALL: usize = 4_294_967_295;

/// Numbers.
#[derive(Debug, Drop)]
pub(crate) struct Numbers {
    /// The numbers before the first that doesn't fit four bytes.
    small: Vec<u32>,
    /// The first number that doesn't fit four bytes, and all after it.
    large: Vec<usize>,
}

impl Model for Numbers {
    ghost use Rattle.std.specs.Prelude.{ℕ, List, ◌++◌};

    ghost Value = { List ℕ };

    ghost view = { λ numbers. numbers.small.items ++ numbers.large.items };
}

impl Numbers {
    /// No numbers yet.
    pub(crate) fn new(alloc: Global) -> Numbers
        ensures { result ≡ [] }
    {
        Numbers {
            small: Vec::new(alloc),
            large: Vec::new(alloc),
        }
    }

    /// How many numbers there are.
    pub(crate) fn len(&self) -> usize
        ensures { result ≡ length self.now }
    {
        self.small.len() + self.large.len()
    }

    /// One more number.
    pub(crate) fn push(&mut self, number: usize) -> Result<(), NoMemory>
        ensures ok { OnOk result (self.new ≡ self.old ++ number ∷ []) }
        ensures err { OnErr result (self.new ≡ self.old) }
    {
        if number <= GREATEST_SMALL && self.large.is_empty() {
            self.small.push(number as u32)?;
            return Ok(());
        }
        self.large.push(number)?;
        Ok(())
    }

    /// Number `i`.
    pub(crate) fn at(&self, i: usize) -> usize
        requires { i < length self.now }
        ensures { result ≡ slice_index_or self.now i 0 }
    {
        let count = self.small.len();
        if i < count {
            self.small[i] as usize
        } else {
            self.large[i - count]
        }
    }
}
