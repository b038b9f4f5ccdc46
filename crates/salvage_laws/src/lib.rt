//! What the definitions of a salvage say together, each law the contract of a function that does nothing.
#![tactic(auto)]

mod laws;
mod rows;

pub use laws::{
    salvage_has_one_outcome, saved_rows_stand, sound_files_have_outcomes, sound_files_lose_nothing,
};
pub use rows::row_has_one_judgement;
