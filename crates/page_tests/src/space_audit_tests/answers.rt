//! What audits answer, and the tables of it.

ghost use Rattle.std.specs.Prelude.{◌≡◌, ◌<◌};

use page_source::{SparsePages, Steps, Stop};
use space_audit::{Owner, Space, audit};
use std::alloc::Global;
use std::marker::Brand;
use std::process::Abort;
use std::sync::ledger::{Blank, Ledger};

fn run<L: Ledger>(alloc: Global, file: &mut SparsePages, blank: Blank) -> Result<Space, Stop>
    requires name { blank.name ≡ L.name }
    requires parts { blank.parts ≡ L.parts }
    requires shared { 0 < blank.parts }
{
    let mut steps = Steps::<L>::new(blank);
    audit(alloc, file, 33, &mut steps)
}

pub fn audited(alloc: Global, mut file: SparsePages) -> Result<Space, Stop> {
    run::<Brand>(alloc, &mut file, Blank::new(1))
}

/// Fails the test where one of these pages has another owner, or none is known.
pub fn expect_owners(rt: &impl Abort, space: &Space, owners: &[(u32, Option<Owner>)]) {
    for (n, wanted) in owners {
        assert!(rt; owner(space, *n) == *wanted, "page {n}");
    }
}

/// The owner of a page, if it is below the size.
fn owner(space: &Space, n: u32) -> Option<Owner> {
    if n < space.size() {
        Some(space.owner(n))
    } else {
        None
    }
}
