//! Cases that read one file, or a part of one: how they are read off a line, what is called, and what came of it. No part
//! of the product.
#![tactic(auto)]

pub mod audit;
pub mod file;
pub mod get;
pub mod outcome;
pub mod page;
pub mod report;
pub mod row;
pub mod run;
pub mod schema;
pub mod sweep;
pub mod value;
pub mod walk;
