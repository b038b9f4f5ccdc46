//! What ends the checks of a file.

ghost use Rattle.std.specs.Prelude.{◌≡◌};
ghost use Rattle.page_source.specs.Checks.{stop_of};

use crate::errors::{Failed, NoMemory};
use crate::rule::{Fault, Rule};
use thiserror::Error;

/// What ends a call that takes memory.
#[derive(Clone, Copy, Debug, PartialEq, Eq, Error)]
pub enum Stop {
    /// The first broken rule.
    #[error("rule {} is broken at page {}", .0.rule.name(), .0.page)]
    Broken(Fault),
    /// A call of the file failed, and its count of faults rose.
    #[error("the file can't be read")]
    Source,
    /// Memory ran out.
    #[error("out of memory")]
    Memory,
}

/// What ends a call that takes no memory.
#[derive(Clone, Copy, Debug, PartialEq, Eq, Error)]
pub enum Halt {
    /// The first broken rule.
    #[error("rule {} is broken at page {}", .0.rule.name(), .0.page)]
    Broken(Fault),
    /// A call of the file failed, and its count of faults rose.
    #[error("the file can't be read")]
    Source,
}

impl From<Failed> for Halt {
    ghost use Rattle.page_source.specs.declared.checks.Halt.{Halt};

    ghost from_gives = { λ _ halt. halt ≡ Halt.Source };

    fn from(_: Failed) -> Self {
        Halt::Source
    }
}

impl From<Fault> for Halt {
    ghost use Rattle.page_source.specs.declared.checks.Halt.{Halt};

    ghost from_gives = { λ fault halt. halt ≡ Halt.Broken fault };

    fn from(fault: Fault) -> Self {
        Halt::Broken(fault)
    }
}

impl From<Failed> for Stop {
    ghost use Rattle.page_source.specs.declared.checks.Stop.{Stop};

    ghost from_gives = { λ _ stop. stop ≡ Stop.Source };

    fn from(_: Failed) -> Self {
        Stop::Source
    }
}

impl From<NoMemory> for Stop {
    ghost use Rattle.page_source.specs.declared.checks.Stop.{Stop};

    ghost from_gives = { λ _ stop. stop ≡ Stop.Memory };

    fn from(_: NoMemory) -> Self {
        Stop::Memory
    }
}

impl From<Fault> for Stop {
    ghost use Rattle.page_source.specs.declared.checks.Stop.{Stop};

    ghost from_gives = { λ fault stop. stop ≡ Stop.Broken fault };

    fn from(fault: Fault) -> Self {
        Stop::Broken(fault)
    }
}

impl From<Halt> for Stop {
    ghost from_gives = { λ halt stop. stop ≡ stop_of halt };

    fn from(halt: Halt) -> Self {
        match halt {
            Halt::Broken(fault) => Stop::Broken(fault),
            Halt::Source => Stop::Source,
        }
    }
}

impl Rule {
    /// The rule, broken at the page with this number.
    pub fn at(self, page: u32) -> Fault
        ensures { result ≡ record { rule = self; page = page } }
    {
        Fault { rule: self, page }
    }
}
