//! The places of keys in a list, found without going through it.

ghost use Rattle.std.specs.Prelude.{◌≡◌, ◌<◌, ◌≤◌, ◌++◌, ◌∷◌, [], List, ℕ, length, IfOk, OnOk};
ghost use Rattle.space_audit.specs.Numbering.{place_in};

use page_source::NoMemory;
use std::alloc::Global;
use std::collections::BTreeMap;
use std::marker::Model;

/// The place of each key in a list: that of the first, where the key comes more than once.
#[derive(Debug, Drop)]
pub(crate) struct Numbering {
    keys: Vec<u64>,
    places: BTreeMap<u64, u32>,
}

impl Model for Numbering {
    ghost use Rattle.std.specs.Prelude.{◌≡◌, ◌<◌, List, ℕ, length};
    ghost use Rattle.std.specs.Ordering.{nat_cmp};
    ghost use Rattle.std.specs.BTreeMap.{get};
    ghost use Rattle.space_audit.specs.Numbering.{FindsKey};

    ghost Value = { List ℕ };

    ghost view = { λ n. n.keys.items };

    ghost invariant = { λ n. (length n.keys.items < 4294967296)
        × ((key : ℕ) → FindsKey n.keys.items key (get nat_cmp n.places key)) };
}

impl Numbering {
    /// No key yet, with room for so many.
    pub(crate) fn with_room(alloc: Global, keys: u32) -> Result<Numbering, NoMemory>
        ensures { IfOk result (λ numbering. numbering ≡ []) }
    {
        Ok(Numbering {
            keys: Vec::with_capacity(alloc, keys as usize)?,
            places: BTreeMap::new(alloc),
        })
    }

    /// Adds a key at the end.
    pub(crate) fn push(&mut self, key: u64) -> Result<(), NoMemory>
        requires { length self.old < 4294967295 }
        ensures { OnOk result (self.new ≡ self.old ++ key ∷ []) }
    {
        self.keys.reserve(1)?;
        if !self.places.contains_key(&key) {
            self.places.insert(key, self.keys.len() as u32)?;
        }
        self.keys.push(key)?;
        Ok(())
    }

    /// The place of the first key that is this one, the number of all keys if there is none.
    pub(crate) fn find(&self, key: u64) -> u32
        ensures place { result ≡ place_in self.now key }
        ensures most { result ≤ length self.now }
    {
        match self.places.get(&key) {
            Some(place) => *place,
            None => self.keys.len() as u32,
        }
    }
}
