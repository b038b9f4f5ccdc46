//! Tablespaces that are sound, and how the calls of the file fail. What breaks a rule stands in lines of the crate
//! `cases`.

mod answers;
mod draft;
mod extents;
mod small;
