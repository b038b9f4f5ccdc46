//! What a line of a case says of its file, and the objects over it that the cases call with. No part of the product.
#![tactic(auto)]

pub mod edit;
pub mod edited_pages;
pub mod error;
pub mod failing;
pub mod hex;
pub mod named_files;
pub mod pages;
pub mod plan;
pub mod rows;
pub mod store;
pub mod text;
pub mod unread;
pub mod words;
