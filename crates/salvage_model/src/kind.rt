//! Which records of a leaf are looked for.

/// Which records of a leaf are looked for.
#[derive(Clone, Copy, Debug, PartialEq, Eq)]
pub enum RecordKind {
    /// The records of the chain without a delete mark: the rows of the table.
    Live,
    /// The records of the chain with the delete mark: deleted rows that weren't purged yet.
    Deleted,
    /// The records of the free list: what a purge or a split left, until it is written over. Copies of rows that stand
    /// elsewhere are among them.
    Freed,
}
