//! What a page is to an index whose rows are looked for.

use page_source::Rule;

/// What a page is to an index.
#[derive(Clone, Copy, Debug, PartialEq, Eq)]
pub enum Verdict {
    /// No leaf of the index: another page, or zeros.
    Other,
    /// A page that breaks this rule, and may have been a leaf of the index.
    Lost(Rule),
    /// A leaf of the index, whole by itself.
    Leaf,
}
