//! What is saved of a table, out of a file that may be broken anywhere: the definitions, and the types that they speak
//! of.
#![tactic(auto)]

mod kind;
pub mod laws;
mod loss;
mod saved;
mod stop;

pub use kind::RecordKind;
pub use loss::Loss;
pub use saved::Saved;
pub use stop::SalvageStop;
