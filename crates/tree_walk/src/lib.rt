//! One tree of an index: the rules of its pages, level by level, and its rows, leaf by leaf (btr0btr, btr0cur).
#![tactic(auto)]

mod cursor;
mod ends;
mod index;
pub mod laws;
mod leaves;
mod level;
mod place;
mod tree;
mod walk;

pub use cursor::{Cursor, Next};
pub use ends::TreeEnds;
pub use leaves::LeafCursor;
pub use place::{Stand, check_node};
pub use tree::walk_tree;
pub use walk::Walk;
