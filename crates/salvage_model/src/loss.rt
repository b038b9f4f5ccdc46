//! What a value is lost by.

use page_source::Fault;

/// What a value is lost by.
#[derive(Clone, Copy, Debug, PartialEq, Eq)]
pub enum Loss {
    /// A broken rule.
    Broken(Fault),
    /// A page of the value's chain, which couldn't be fetched.
    Unread(u32),
}

impl From<Fault> for Loss {
    ghost use Rattle.std.specs.Prelude.{◌≡◌};
    ghost use Rattle.salvage_model.specs.declared.loss.Loss.{Loss};

    ghost from_gives = { λ fault loss. loss ≡ Loss.Broken fault };

    fn from(fault: Fault) -> Self {
        Loss::Broken(fault)
    }
}
