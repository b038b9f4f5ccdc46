//! The numbers of a salvage.

ghost use Rattle.std.specs.Prelude.{◌↔◌, IsTrue};
ghost use Rattle.salvage_model.specs.Saved.{IsComplete};

/// The numbers of a salvage.
#[derive(Clone, Copy, Debug, PartialEq, Eq)]
pub struct Saved {
    /// The rows that were written whole.
    pub rows: u64,
    /// The rows that were written as a comment, since a value is lost.
    pub partial: u64,
    /// The leaves that stand whole by themselves.
    pub leaves: u32,
    /// The pages that couldn't be fetched, don't stand, or are leaves whose records don't hold.
    pub lost: u32,
}

impl Saved {
    /// Whether nothing is lost, and there is a leaf.
    pub fn is_complete(&self) -> bool
        ensures { IsTrue result ↔ IsComplete self.now }
    {
        self.partial == 0 && self.lost == 0 && self.leaves > 0
    }
}
