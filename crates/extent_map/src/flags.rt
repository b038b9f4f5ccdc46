//! A truth value for each page.

ghost use Rattle.std.specs.Prelude.{◌≡◌, List, Bool};

use std::marker::Model;

/// A truth value for each page.
#[derive(Debug, Drop)]
pub struct FlagList {
    flags: Vec<bool>,
}

impl Model for FlagList {
    ghost Value = { List Bool };

    ghost view = { λ list. list.flags.items };
}

impl FlagList {
    pub(crate) fn of(flags: Vec<bool>) -> FlagList
        ensures { result ≡ flags.items }
    {
        FlagList { flags }
    }

    /// The flags as a slice, one a page.
    pub fn flags(&self) -> &[bool]
        ensures { result.now ≡ self.now }
    {
        &self.flags
    }
}
