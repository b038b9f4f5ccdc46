//! The whole program over objects in memory: its words and statuses. What it answers of files stands in lines of the
//! crate `cases`.

mod build;
mod command;
mod failing;
mod fetches;
mod files;
mod sample;
mod words;
