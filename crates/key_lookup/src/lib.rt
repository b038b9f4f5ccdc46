//! The look-up of one row by its key: the way from the root to a leaf, and the row there (btr0cur).
#![tactic(auto)]

mod by_key;
mod checked_row;
mod choose;
mod in_file;
mod key;
mod key_text;
pub mod laws;
mod leaf;
mod room;
mod stop;
mod tree;
mod way;

pub use by_key::get;
pub use stop::GetStop;
