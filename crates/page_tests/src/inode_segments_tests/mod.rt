//! Inode lists that are sound, and the inodes on their pages. What breaks a rule stands in lines of the crate `cases`.

mod draft;
mod reading;
