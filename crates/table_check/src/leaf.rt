//! The leaves of the clustered tree, whose records are the rows.

use column_values::FieldList;
use offpage_chain::ChainPages;
use page_source::Page;
use space_audit::Space;

/// What the leaves of the clustered tree have in common.
#[derive(Clone, Copy)]
pub(crate) struct Leaves<'a> {
    /// The checked space that the leaves are in.
    pub(crate) space: &'a Space,
    /// The segment that uses the leaves.
    pub(crate) segment: u32,
    /// The fields of the leaves' records.
    pub(crate) fields: &'a FieldList,
}

/// A leaf of the clustered tree, in an audited space or in another.
#[derive(Clone, Copy)]
pub struct RowLeaf<'a> {
    /// The pages that the values of the leaf's rows may go on in.
    pub pages: ChainPages<'a>,
    /// The fields of the leaf's records.
    pub fields: &'a FieldList,
    /// The number of the leaf's page.
    pub number: u32,
    pub page: &'a Page,
}
