//! Lists of extents that follow one another.

ghost use Rattle.std.specs.Prelude.{◌≡◌, ◌+◌, ◌<◌, ◌≤◌};
ghost use Rattle.space_layout.specs.Runs.{null_address, base_of, node_of};

use page_source::FIL_NULL;
use space_header::{Address, Base, Node, descriptor_address};

/// Extents that follow one another: the number of the first, and how many there are.
#[derive(Clone, Copy, Debug, PartialEq, Eq)]
pub struct Run {
    pub first: u32,
    pub count: u32,
}

/// No extent.
pub(crate) const NO_RUN: Run = Run { first: 0, count: 0 };

/// The address of no node.
pub(crate) const NULL: Address = Address {
    page: FIL_NULL,
    offset: 0,
};

/// The base of the list of the extents of a run.
#[tactic(auto, unfolding(crate::specs::Runs::base_of))]
pub(crate) fn base_of(run: Run) -> Base
    requires { run.first + run.count ≤ 256 }
    ensures { result ≡ base_of run }
{
    if run.count == 0 {
        Base {
            length: 0,
            first: NULL,
            last: NULL,
        }
    } else {
        Base {
            length: run.count,
            first: descriptor_address(run.first),
            last: descriptor_address(run.first + run.count - 1),
        }
    }
}

/// The node of an extent of a run.
#[tactic(auto, unfolding(crate::specs::Runs::node_of))]
pub(crate) fn node_of(run: Run, e: u32) -> Node
    requires small { run.first + run.count ≤ 256 }
    requires low { run.first ≤ e }
    requires high { e < run.first + run.count }
    ensures { result ≡ node_of run e }
{
    Node {
        prev: if e == run.first {
            NULL
        } else {
            descriptor_address(e - 1)
        },
        next: if e + 1 == run.first + run.count {
            NULL
        } else {
            descriptor_address(e + 1)
        },
    }
}
